//! What stays of an action and its descendants once outcomes are told.
ghost use Rattle.std.specs.Prelude.{◌≡◌, ◌&&◌, not, Bool, None};
ghost use Rattle.std.specs.List.{list_any};
ghost use Rattle.std.specs.List.Sorted.{IsStrictlySortedBy-prop};
ghost use Rattle.std.specs.Option.{option_copied as name_of};
ghost use Rattle.action_names.specs.Names.{ancestors};
ghost use Rattle.run_model.specs.LocalReadings.{outcome_in};
ghost use Rattle.object_laws.specs.OnceTold.{aborts_in, is_left_below, last_in_front};
ghost use Rattle.atomic_object.specs.Staying.{OutcomesRise};

use action_names::Name;
use holders::Survivors;

/// What is held by an action or below it, and is not undone by these outcomes, which rise by name.
#[derive(Drop)]
pub(crate) struct Staying<'a> {
    pub(crate) from: &'a Name,
    pub(crate) outcomes: &'a [(Name, bool)],
    ghost rising: { OutcomesRise outcomes.now } by { IsStrictlySortedBy-prop _ _ },
}

impl<'a> Survivors for Staying<'a> {
    ghost use Rattle.object_laws.specs.OnceTold.{is_left_below};

    ghost stays = { λ s a. is_left_below s.outcomes.now s.from.now a };

    fn stays(&self, holder: &Name) -> bool {
        self.from.is_ancestor(holder) && !is_undone(self.outcomes, holder)
    }
}

/// The last of the first owners that all stay.
pub(crate) fn last_staying<'a>(owners: &'a [Name], staying: &Staying<'_>) -> Option<&'a Name>
    ensures { name_of result
        ≡ last_in_front (is_left_below staying.now.outcomes.now staying.now.from.now)
        None owners.entry.now }
{
    let mut last = None;
    for owner in owners {
        if !staying.stays(owner) {
            return last;
        }
        last = Some(owner);
    }
    last
}

// Whether the action or an ancestor of it aborted. It looks up each ancestor.
fn is_undone(outcomes: &[(Name, bool)], action: &Name) -> bool
    requires { OutcomesRise outcomes.now }
    ensures { result ≡ list_any (aborts_in outcomes.now) (ancestors action.now) }
{
    let path = action.components();
    for depth in 0..path.len() {
        if has_aborted(outcomes, &path[..depth + 1]) {
            return true;
        }
    }
    false
}

// Whether the outcomes say of the action that it aborted.
fn has_aborted(outcomes: &[(Name, bool)], path: &[u32]) -> bool
    requires { OutcomesRise outcomes.now }
    ensures { result ≡ aborts_in outcomes.now path.now }
{
    match outcome_of(outcomes, path) {
        Some(committed) => !committed,
        None => false,
    }
}

// What the outcomes say of the action.
fn outcome_of(outcomes: &[(Name, bool)], path: &[u32]) -> Option<bool>
    requires { OutcomesRise outcomes.now }
    ensures { result ≡ outcome_in outcomes.now path.now }
{
    match outcomes.binary_search_by(|(known, _)| known.components().cmp(path)) {
        Ok(at) => Some(outcomes[at].1),
        Err(_) => None,
    }
}
