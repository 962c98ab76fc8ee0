//! Subactions of a transaction: they are called, worked in, and committed or aborted.
ghost use Rattle.std.specs.Prelude.{◌≡◌, true, IfErr, IfOk, OnErr, OnOk};
ghost use Rattle.run_model.specs.Actions.{is_committed};
ghost use Rattle.run_model.specs.declared.step.Step.TheVariants as steps;
ghost use Rattle.service.specs.Calling.{ComesToNothing, IsCall, IsReply, WaitsIf};
ghost use Rattle.service.specs.Opening.{BeganAt};
ghost use Rattle.service.specs.Transacting.{CommitsCall, CommitsNoChild, EndedAndTold, Goes, Includes, Settles, Works, finishes, settles};
ghost use Rattle.service.specs.Working.{CallsOnce};

use crate::fault::CallFault;
use crate::place::{Place, with_number};
use crate::service::Service;
use crate::transaction::{Work, work_in};
use action_names::Name;
use atomic_types::{Op, Reply};
use run_model::ObjectId;
use std::marker::Brand;
use stepping::MakesOwnSteps;

/// Makes an operation of the action.
pub(crate) fn operate_in<W: MakesOwnSteps + Drop>(
    service: &mut Service<W>,
    at: &Place,
    object: ObjectId,
    operation: Op,
) -> Result<Reply, CallFault>
    ensures call { IsCall W.run W.sees W.leaves (steps.Op at.now.action object operation) IsReply
        service.old.world service.new.world result }
    ensures waits { IfErr result (WaitsIf W.gives_up) }
    ensures works { Works W.sees at.now.action (W.run service.old.world) (W.run service.new.world)
        at.now.left at.now.left }
{
    service.operate(&at.action, object, operation)
}

/// Calls a handler of the guardian, and runs the work in the subaction. It is committed if the work succeeds, and else
/// aborted.
pub(crate) fn call_in<W: MakesOwnSteps + Drop, J: Work<W>>(
    service: &mut Service<W>,
    at: &mut Place,
    guardian: u32,
    work: &mut J,
) -> Result<J::Value, J::Error>
    ensures action { at.new.action ≡ at.old.action }
    ensures home { at.new.home ≡ at.old.home }
    ensures reached { Includes at.old.reached.items at.new.reached.items }
    ensures works { ∥ Works W.sees at.old.action (W.run service.old.world) (W.run service.new.world)
        at.old.left at.new.left ∥₁ }
    ensures committed { OnOk result (CommitsCall W.sees at.old.action guardian
        (W.run service.old.world) (W.run service.new.world)) }
    ensures undone { OnErr result (CommitsNoChild at.old.action (W.run service.old.world)
        (W.run service.new.world)) }
    ensures once { CallsOnce W.sees J.does J.Error.from_gives at.old.action guardian
        (W.run service.old.world) (W.run service.new.world) work.old work.new result }
{
    let mut sub = begin_sub(service, at, guardian)?;
    match work_in::<Brand, W, J>(service, &mut sub, work) {
        Ok(value) => {
            commit_sub(service, at, guardian, sub)?;
            Ok(value)
        }
        Err(error) => {
            abort_sub(service, at, guardian, sub);
            Err(error)
        }
    }
}

/// Begins a subaction of the action at the guardian. What came to nothing so far is kept in mind there.
fn begin_sub<W: MakesOwnSteps + Drop>(
    service: &mut Service<W>,
    at: &mut Place,
    guardian: u32,
) -> Result<Place, CallFault>
    ensures call { IsCall W.run W.sees W.leaves (steps.Call at.old.action guardian) BeganAt
        service.old.world service.new.world result }
    ensures action { at.new.action ≡ at.old.action }
    ensures home { at.new.home ≡ at.old.home }
    ensures reached { at.new.reached ≡ at.old.reached }
    ensures there { IfOk result (λ sub. sub.home ≡ guardian) }
    ensures more { IfOk result (λ sub. Includes at.old.reached.items sub.reached.items) }
    ensures left { IfOk result (λ sub. sub.left ≡ at.old.left) }
    ensures err { OnErr result (at.new.left ≡ at.old.left) }
{
    let reached = with_number(&at.reached, guardian)?;
    let action = service.call(&at.action, guardian)?;
    let left = at.left.take();
    Ok(Place {
        action,
        home: guardian,
        reached,
        left,
    })
}

/// Commits the subaction into the action and tells its guardian. If it cannot be committed, it is aborted.
fn commit_sub<W: MakesOwnSteps + Drop>(
    service: &mut Service<W>,
    at: &mut Place,
    guardian: u32,
    sub: Place,
) -> Result<(), CallFault>
    ensures ends { Settles W.sees (finishes sub.action) (W.run service.old.world)
        (W.run service.new.world) sub.left at.new.left
        (EndedAndTold sub.action guardian (W.run service.new.world)) }
    ensures committed { OnOk result (is_committed sub.action (W.run service.new.world).past ≡ true) }
    ensures undone { OnErr result (Goes W.sees (settles sub.action) (W.run service.old.world)
        (W.run service.new.world)) }
    ensures stopped { IfErr result (ComesToNothing W.sees (W.run service.old.world)
        (steps.Commit sub.action)) }
    ensures action { at.new.action ≡ at.old.action }
    ensures home { at.new.home ≡ at.old.home }
    ensures reached { OnOk result (at.new.reached ≡ sub.reached) }
    ensures err { OnErr result (at.new.reached ≡ at.old.reached) }
{
    let Place {
        action,
        reached,
        left,
        ..
    } = sub;
    let (committed, left) = commit_and_tell(service, guardian, &action, left);
    at.keep(left);
    committed?;
    at.reach(reached);
    Ok(())
}

/// Aborts the subaction and tells its guardian.
fn abort_sub<W: MakesOwnSteps + Drop>(
    service: &mut Service<W>,
    at: &mut Place,
    guardian: u32,
    sub: Place,
)
    ensures ends { Settles W.sees (settles sub.action) (W.run service.old.world)
        (W.run service.new.world) sub.left at.new.left
        (EndedAndTold sub.action guardian (W.run service.new.world)) }
    ensures action { at.new.action ≡ at.old.action }
    ensures home { at.new.home ≡ at.old.home }
    ensures reached { at.new.reached ≡ at.old.reached }
{
    let Place { action, left, .. } = sub;
    at.keep(abort_and_tell(service, guardian, &action, left));
}

/// Commits the action and tells the guardian. If it cannot be committed, it is aborted. What came to nothing stands
/// beside whether it committed.
pub(crate) fn commit_and_tell<W: MakesOwnSteps + Drop>(
    service: &mut Service<W>,
    guardian: u32,
    action: &Name,
    left: Option<CallFault>,
) -> (Result<(), CallFault>, Option<CallFault>)
    ensures ends { Settles W.sees (finishes action.now) (W.run service.old.world)
        (W.run service.new.world) left result.1
        (EndedAndTold action.now guardian (W.run service.new.world)) }
    ensures committed { OnOk result.0
        (is_committed action.now (W.run service.new.world).past ≡ true) }
    ensures undone { OnErr result.0 (Goes W.sees (settles action.now) (W.run service.old.world)
        (W.run service.new.world)) }
    ensures stopped { IfErr result.0 (ComesToNothing W.sees (W.run service.old.world)
        (steps.Commit action.now)) }
{
    match service.commit(action) {
        Ok(()) => {
            let told = service.tell(guardian, action);
            (Ok(()), left.or(told.err()))
        }
        Err(fault) => (Err(fault), abort_and_tell(service, guardian, action, left)),
    }
}

/// Aborts the action and tells the guardian. Gives what came to nothing.
pub(crate) fn abort_and_tell<W: MakesOwnSteps + Drop>(
    service: &mut Service<W>,
    guardian: u32,
    action: &Name,
    left: Option<CallFault>,
) -> Option<CallFault>
    ensures { Settles W.sees (settles action.now) (W.run service.old.world) (W.run service.new.world)
        left result (EndedAndTold action.now guardian (W.run service.new.world)) }
{
    match service.abort(action) {
        Ok(()) => left.or(service.tell(guardian, action).err()),
        Err(fault) => left.or(Some(fault)),
    }
}
