//! The top actions of which a store has a record.
ghost use Rattle.std.specs.Prelude.{◌≡◌, true};
ghost use Rattle.std.specs.Option.{option_map};
ghost use Rattle.action_names.specs.Names.{Name};
ghost use Rattle.guardian_laws.specs.Stored.{has_record};
ghost use Rattle.guardian.specs.Writes.{is_recorded};

use action_names::Name;
use holders::Survivors;
use stable_store::{Kept, Stable};

/// The top actions of which a store has a record.
#[derive(Clone, Copy)]
pub(crate) struct Records<'a> {
    kept: Option<&'a Kept>,
}

impl<'a> Survivors for Records<'a> {
    ghost use Rattle.std.specs.Option.{option_map};
    ghost use Rattle.guardian.specs.Writes.{is_recorded};

    ghost stays = { λ records a. is_recorded (option_map (λ kept. kept.now) records.kept) a };

    fn stays(&self, holder: &Name) -> bool {
        match self.kept {
            Some(kept) => holder.is_top() && kept.prepared.contains_key(&holder.last()),
            None => false,
        }
    }
}

/// Those of this store, which has a content.
pub(crate) fn recorded_in<S: Stable>(store: &S) -> Records<'_>
    requires found { (S.seen store.now).holds_content ≡ true }
    ensures { (a : Name) → is_recorded (option_map (λ kept. kept.now) result.kept) a
        ≡ has_record (S.seen store.now).content a }
{
    Records { kept: store.kept() }
}
