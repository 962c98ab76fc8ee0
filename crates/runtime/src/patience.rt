//! How long an operation that waits is tried again.
ghost use Rattle.std.specs.Prelude.{IsTrue};

/// How long an operation that waits is tried again.
pub trait Patience {
    /// What is so once it is over.
    ghost over: { Type 0 };

    /// Whether it is over. This is asked before the operation sleeps, inside the lock of the guardian that it names.
    /// It must not make steps of the same runtime.
    fn is_over(&self) -> bool
        ensures { IsTrue result → over };
}

/// Patience without end.
#[derive(Clone, Copy, Debug, Default)]
pub struct Endless;

impl Patience for Endless {
    ghost over = { ⊥ };

    fn is_over(&self) -> bool {
        false
    }
}
