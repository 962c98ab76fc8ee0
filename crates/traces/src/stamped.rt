ghost use Rattle.std.specs.Prelude.{◌≡◌, IfOk};

use run_model::Event;
use std::alloc::AllocError;
use std::marker::Model;

/// An event with its stamp.
#[derive(Drop)]
pub struct Stamped {
    pub stamp: u64,
    pub event: Event,
}

impl Model for Stamped {
    ghost use Rattle.std.specs.Prelude.{ℕ};
    ghost use Rattle.run_model.specs.declared.history.Event.{Event};

    ghost Value = { ℕ × Event };

    ghost view = { λ a. (a.stamp, a.event) };
}

impl Stamped {
    /// The same event with the same stamp.
    pub fn copy(&self) -> Result<Stamped, AllocError>
        ensures { IfOk result (λ copy. copy ≡ self.now) }
    {
        Ok(Stamped {
            stamp: self.stamp,
            event: self.event.copy()?,
        })
    }
}
