//! What an object shows, and how the events of a guardian's own history change that.
//!
//! Each law is the contract of a function without a body. `atomic_object` rests its calls on them.
#![tactic(auto)]

ghost use Rattle.object_laws.specs.EventLaws.{CrashLeaves, HeardInTurn, OperationIsKept, OutcomesAreHeard};
ghost use Rattle.object_laws.specs.Laws.{AddersOnTop, BlockersShown, ConcernedShown, CrashedShows, KnowsShown, NoneBetween, OperatedShows, OwnersAbove, PartsShown, PassedShows, ReadsShown, RestoredShows, UndoneShows, UntouchedShows, WritesShown};
ghost use Rattle.object_laws.specs.OnceTold.{PartsOnceTold};

/// An object that nobody touched shows that nothing is kept.
pub fn untouched_shows()
    ensures { UntouchedShows }
{}

/// Once an operation that waits for nobody is granted, the object shows that it is kept.
pub fn operated_shows()
    ensures { OperatedShows }
{}

/// Once what an action held was handed on, the object shows that the action was told committed.
pub fn passed_shows()
    ensures { PassedShows }
{}

/// Once what an action and its descendants held was dropped, the object shows that all they did is undone.
pub fn undone_shows()
    ensures { UndoneShows }
{}

/// Once a crash left what prepared top actions wrote and added, the object shows that.
pub fn crashed_shows()
    ensures { CrashedShows }
{}

/// An object that a store gave back shows what was given.
pub fn restored_shows()
    ensures { RestoredShows }
{}

/// What an action holds of an object is its version, or else its delta.
pub fn parts_shown()
    ensures { PartsShown }
{}

/// What a top action will hold once the outcomes of its descendants are told is said by the versions and the deltas
/// before that.
pub fn parts_once_told()
    ensures { PartsOnceTold }
{}

/// For whom an operation waits is said by the locks.
pub fn blockers_shown()
    ensures { BlockersShown }
{}

/// Whether a telling of an outcome changes the object is said by the locks.
pub fn concerned_shown()
    ensures { ConcernedShown }
{}

/// The reply of a read is that of the version on top, with what is added beside it.
pub fn reads_shown()
    ensures { ReadsShown }
{}

/// The reply of a write or an add is that of the version on top.
pub fn writes_shown()
    ensures { WritesShown }
{}

/// The base and the version on top have the operations that the object had at first.
pub fn knows_shown()
    ensures { KnowsShown }
{}

/// Where a write or an add waits for nobody, every owner is an ancestor of its action.
pub fn owners_above()
    ensures { OwnersAbove }
{}

/// An owner that adds, and waits for nobody, has the version on top.
pub fn adders_on_top()
    ensures { AddersOnTop }
{}

/// The next holder is a proper ancestor, and no owner stands between.
pub fn none_between()
    ensures { NoneBetween }
{}

/// A granted operation is kept, the newest.
pub fn operation_is_kept()
    ensures { OperationIsKept }
{}

/// What is neither a crash nor a granted operation on the object changes it by the outcomes alone that it brings.
pub fn outcomes_are_heard()
    ensures { OutcomesAreHeard }
{}

/// A crash leaves of the operations those that outlive it.
pub fn crash_leaves()
    ensures { CrashLeaves }
{}

/// Outcomes of different actions may be heard one after another, those of descendants before those of their ancestors.
pub fn heard_in_turn()
    ensures { HeardInTurn }
{}
