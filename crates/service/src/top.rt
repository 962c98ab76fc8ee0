//! The top action of a transaction: how it begins and how it is ended.
ghost use Rattle.std.specs.Prelude.{◌≡◌, [], ◌∷◌, false, true, IfErr, IfOk, None, Ok, Err};
ghost use Rattle.std.specs.Result.{is_ok};
ghost use Rattle.run_model.specs.Actions.{is_ended};
ghost use Rattle.run_model.specs.declared.step.Step.TheVariants as steps;
ghost use Rattle.service.specs.Calling.{IsCall};
ghost use Rattle.service.specs.Opening.{BeganAt};
ghost use Rattle.service.specs.Outcomes.{has_committed, is_decided};
ghost use Rattle.service.specs.Transacting.{AllTold, CameToNothing, Concludes, EndsTop, Settles, ends_top, is_concluding, is_voted_down, settles};
ghost use Rattle.service.specs.declared.fault.CallFault.{CallFault};
ghost use Rattle.service.specs.declared.outcome.Cause.TheVariants.{Vote, Step as ByStep};
ghost use Rattle.service.specs.declared.outcome.Outcome.TheVariants.{Aborted};
ghost use Rattle.service.specs.Working.{IsOutcomeOf};

use crate::fault::CallFault;
use crate::outcome::{Cause, Outcome};
use crate::place::{Place, one_number};
use crate::service::Service;
use action_names::Name;
use std::alloc::Global;
use stepping::MakesOwnSteps;

/// Begins a top action at its home.
pub(crate) fn begin_top<W: MakesOwnSteps + Drop>(
    service: &mut Service<W>,
    alloc: Global,
    home: u32,
) -> Result<Place, CallFault>
    ensures call { IsCall W.run W.sees W.leaves (steps.Top home) BeganAt
        service.old.world service.new.world result }
    ensures home { IfOk result (λ at. at.home ≡ home) }
    ensures reached { IfOk result (λ at. at.reached.items ≡ home ∷ []) }
    ensures left { IfOk result (λ at. at.left ≡ None) }
{
    let reached = one_number(alloc, home)?;
    let action = service.begin(home)?;
    Ok(Place {
        action,
        home,
        reached,
        left: None,
    })
}

/// Ends the top action by two phases: the guardians that it reached vote, it is decided or aborted, and each is told.
/// If it is not to commit, it is aborted at once. Says whether it committed, or why it could not be voted on or
/// decided, and what came to nothing beside.
pub(crate) fn end_top<W: MakesOwnSteps + Drop>(
    service: &mut Service<W>,
    at: Place,
    commits: bool,
) -> (Result<bool, CallFault>, Option<CallFault>)
    ensures ends { EndsTop W.sees at.action at.reached.items (W.run service.old.world)
        (W.run service.new.world) at.left result.1 (is_decided result.0) }
    ensures asked { commits ≡ false → is_decided result.0 ≡ false }
    ensures down { result.0 ≡ Ok false → commits ≡ true
        → is_voted_down at.action (W.run service.new.world).past ≡ true }
    ensures stopped { IfErr result.0 (CameToNothing W.sees (ends_top at.action) is_concluding
        (W.run service.old.world) (W.run service.new.world)) }
{
    let Place {
        action,
        reached,
        left,
        ..
    } = at;
    let decided = decide_if(service, &action, reached.as_slice(), commits);
    let left = abort_unless(service, &action, is_yes(&decided), left);
    let left = tell_each(service, reached.as_slice(), &action, left);
    (decided, left)
}

/// Whether it was decided.
fn is_yes(decided: &Result<bool, CallFault>) -> bool
    ensures { result ≡ is_decided decided.now }
{
    matches!(decided, Ok(true))
}

/// Lets the guardians vote and decides, if the top action is to commit.
fn decide_if<W: MakesOwnSteps + Drop>(
    service: &mut Service<W>,
    top: &Name,
    guardians: &[u32],
    commits: bool,
) -> Result<bool, CallFault>
    ensures concludes { Concludes W.sees top.now guardians.now (W.run service.old.world)
        (W.run service.new.world) (is_decided result) }
    ensures asked { commits ≡ false → is_decided result ≡ false }
    ensures down { result ≡ Ok false → commits ≡ true
        → is_voted_down top.now (W.run service.new.world).past ≡ true }
    ensures stopped { IfErr result (CameToNothing W.sees (ends_top top.now) is_concluding
        (W.run service.old.world) (W.run service.new.world)) }
{
    if commits {
        service.vote_and_decide(top, guardians)
    } else {
        Ok(false)
    }
}

/// Aborts the top action unless it has committed.
fn abort_unless<W: MakesOwnSteps + Drop>(
    service: &mut Service<W>,
    top: &Name,
    committed: bool,
    left: Option<CallFault>,
) -> Option<CallFault>
    ensures { Settles W.sees (settles top.now) (W.run service.old.world) (W.run service.new.world)
        left result (committed ≡ false → is_ended top.now (W.run service.new.world).past ≡ true) }
{
    if committed {
        return left;
    }
    left.or(service.abort(top).err())
}

/// Tells each of the guardians how the top action ended, also after one could not be told.
fn tell_each<W: MakesOwnSteps + Drop>(
    service: &mut Service<W>,
    guardians: &[u32],
    top: &Name,
    left: Option<CallFault>,
) -> Option<CallFault>
    ensures { Settles W.sees (settles top.now) (W.run service.old.world) (W.run service.new.world)
        left result (AllTold top.now guardians.now (W.run service.new.world)) }
{
    let mut left = left;
    for guardian in guardians {
        left = left.or(service.tell(*guardian, top).err());
    }
    left
}

/// How the transaction ended, by what the work gave and how its top action ended.
pub(crate) fn outcome<T: Drop, E: Drop>(
    done: Result<T, E>,
    decided: Result<bool, CallFault>,
) -> Outcome<T, E>
    requires { IfErr done (λ _. is_decided decided ≡ false) }
    ensures committed { has_committed result ≡ is_decided decided }
    ensures vote { result ≡ Aborted Vote → (is_ok done ≡ true) × (decided ≡ Ok false) }
    ensures step { (fault : CallFault) → result ≡ Aborted (ByStep fault) → decided ≡ Err fault }
    ensures given { IsOutcomeOf done result }
{
    match (done, decided) {
        (Ok(value), Ok(true)) => Outcome::Committed(value),
        (Ok(_), Ok(false)) => Outcome::Aborted(Cause::Vote),
        (Ok(_), Err(fault)) => Outcome::Aborted(Cause::Step(fault)),
        (Err(error), _) => Outcome::Aborted(Cause::Work(error)),
    }
}
