//! Which guardians a step names, and what follows of the forest alone.
ghost use Rattle.std.specs.Prelude.{◌≡◌, ◌||◌, ◌==◌};
ghost use Rattle.action_names.specs.Names.{parent_of};
ghost use Rattle.run_model.specs.declared.step.Step.TheVariants.{Abort};
ghost use Rattle.run_model.specs.LocalHistories.{events_there, home_lent, takes_registry};
ghost use Rattle.layer_contracts.specs.Forests.{ForestState};
ghost use Rattle.layer_contracts.specs.Messages.{is_operation};
ghost use Rattle.world_steps.specs.Naming.{AreNamed, first_named, second_named};

use action_names::Name;
use layer_contracts::Forest;
use run_model::Step;

/// The guardians that a step names: two, or one twice. Which they are, the forest is asked once for a step.
#[derive(Clone, Copy)]
pub struct NamedGuardians {
    pub first: u32,
    pub second: u32,
}

/// The guardians that the step names.
pub fn named<R: Forest>(forest: &R, step: &Step) -> NamedGuardians
    ensures { AreNamed (R.stands forest.now) step.now result }
{
    match step {
        Step::Top(at) | Step::Tell(at, _) | Step::Crash(at) | Step::Recover(at) => twice(*at),
        Step::NestedTop(action)
        | Step::Arms(action, _)
        | Step::Op(action, _, _)
        | Step::Close(action)
        | Step::Decide(action) => twice(forest.home(action.components())),
        Step::Call(action, at) | Step::Prepare(at, action) => NamedGuardians {
            first: forest.home(action.components()),
            second: *at,
        },
        Step::Commit(action) => NamedGuardians {
            first: forest.home(action.components()),
            second: forest.home(parent_path(action)),
        },
        Step::Abort(action) => of_abort(forest, action),
    }
}

// One guardian.
fn twice(guardian: u32) -> NamedGuardians
    ensures first { result.first ≡ guardian }
    ensures second { result.second ≡ guardian }
{
    NamedGuardians {
        first: guardian,
        second: guardian,
    }
}

// The home of an action that aborts, and that of its maker, if it has one.
fn of_abort<R: Forest>(forest: &R, action: &Name) -> NamedGuardians
    ensures { AreNamed (R.stands forest.now) (Abort action.now) result }
{
    let home = forest.home(action.components());
    match forest.maker(action) {
        Some(maker) => NamedGuardians {
            first: home,
            second: forest.home(maker.components()),
        },
        None => twice(home),
    }
}

/// Whether the guardian of this number is one of those.
pub(crate) fn is_named(named: NamedGuardians, guardian: u32) -> bool
    ensures { result ≡ ((named.first == guardian) || (named.second == guardian)) }
{
    named.first == guardian || named.second == guardian
}

/// The path right above the name, which for a top action is empty.
pub fn parent_path(name: &Name) -> &[u32]
    ensures { result.now ≡ parent_of name.now }
{
    let numbers = name.components();
    &numbers[..numbers.len() - 1]
}

/// Whether the step is an operation on an object.
pub fn is_operation(step: &Step) -> bool
    ensures { result ≡ is_operation step.now }
{
    matches!(step, Step::Op(..))
}

/// Whether the step reads or changes the forest.
pub fn takes_registry(step: &Step) -> bool
    ensures { result ≡ takes_registry step.now }
{
    !matches!(step, Step::Op(..) | Step::Crash(_) | Step::Recover(_))
}

/// The home of what a step begins that names these, and 0 where it begins nothing.
pub(crate) fn home_of_new(named: NamedGuardians, step: &Step) -> u32
    ensures { (f : ForestState) → named.first ≡ first_named step.now (events_there f.registry)
        → named.second ≡ second_named step.now (events_there f.registry)
        → result ≡ home_lent step.now f.registry }
{
    match step {
        Step::Top(_) | Step::NestedTop(_) | Step::Arms(_, _) => named.first,
        Step::Call(_, _) => named.second,
        _ => 0,
    }
}
