//! Arms of a transaction: they begin by one step, run at once, and each ends by itself.
ghost use Rattle.std.specs.Prelude.{◌≡◌, ◌∷◌, [], true, IfErr, IfOk, IsOk, None, OnErr, OnOk};
ghost use Rattle.action_names.specs.Names.{Name as ActionName};
ghost use Rattle.run_model.specs.Actions.{is_committed};
ghost use Rattle.run_model.specs.declared.step.ArmKind.TheVariants as arm_kinds;
ghost use Rattle.run_model.specs.declared.step.Step.TheVariants as steps;
ghost use Rattle.service.specs.Arms.{HaveRun};
ghost use Rattle.service.specs.Calling.{ComesToNothing, IsCall};
ghost use Rattle.service.specs.Opening.{BeganBoth};
ghost use Rattle.service.specs.Together.{GivesInArm, HasRoomAgain, IsEndOf, RanNot, RanTogether, arms_of, settles_both};
ghost use Rattle.service.specs.Transacting.{CommitsNoChild, EndedAndTold, Goes, Includes, Settles, Works, began_at, finishes, settles};

use crate::arms::{Arm, RunsArms, run_arms};
use crate::fault::CallFault;
use crate::place::Place;
use crate::service::Service;
use crate::subactions::{abort_and_tell, commit_and_tell};
use crate::transaction::{Work, work_in};
use action_names::{Name, Names};
use layer_contracts::Fault;
use run_model::{ArmKind, ArmKinds};
use std::alloc::{AllocError, Global};
use std::marker::Brand;
use stepping::MakesOwnSteps;

/// Work that is to run in an arm, or has run there.
#[derive(Drop)]
struct InArm<'j, W: MakesOwnSteps + Drop, J: Work<W>> {
    at: &'j mut Place,
    work: &'j mut J,
    /// What came of the work, once it has run.
    done: &'j mut Option<Result<J::Value, J::Error>>,
}

impl<'j, W: MakesOwnSteps + Drop, J: Work<W>> Arm<W> for InArm<'j, W, J> {
    ghost use Rattle.std.specs.Prelude.{◌≡◌, true};
    ghost use Rattle.service.specs.Together.{EndsArm};
    ghost use Rattle.service.specs.Transacting.{began_at};

    ghost may_run = { λ arm begun. began_at arm.at.now.home arm.at.now.action begun.past ≡ true };

    ghost keeps = { λ old new. (new.at.ghost_name ≡ old.at.ghost_name)
        × (new.work.ghost_name ≡ old.work.ghost_name)
        × (new.done.ghost_name ≡ old.done.ghost_name) };

    ghost does = { λ old begun new run. EndsArm W.sees J.does J.Error.from_gives old.at.now
        new.at.now begun run old.work.now new.work.now new.done.now };

    fn run(&mut self, service: &mut Service<W>) {
        let done = work_in::<Brand, W, J>(service, self.at, self.work);
        *self.done = Some(end_arm(service, self.at, done));
    }
}

/// Commits the arm if its work succeeded, and else aborts it. Gives what came of the work.
fn end_arm<W: MakesOwnSteps + Drop, T: Drop, E: Drop + From<CallFault>>(
    service: &mut Service<W>,
    at: &mut Place,
    done: Result<T, E>,
) -> Result<T, E>
    ensures { IsEndOf W.sees E.from_gives at.old at.new (W.run service.old.world)
        (W.run service.new.world) done result }
{
    match done {
        Ok(value) => {
            commit_arm(service, at)?;
            Ok(value)
        }
        Err(error) => {
            let left = at.left.take();
            let left = abort_and_tell(service, at.home, &at.action, left);
            at.keep(left);
            Err(error)
        }
    }
}

/// Commits the arm and tells its guardian. If it cannot be committed, it is aborted.
///
/// It commits only if its list of guardians has room for as many again: then the longer of two lists has room for the
/// shorter.
fn commit_arm<W: MakesOwnSteps + Drop>(
    service: &mut Service<W>,
    at: &mut Place,
) -> Result<(), CallFault>
    ensures ends { Settles W.sees (finishes at.old.action) (W.run service.old.world)
        (W.run service.new.world) at.old.left at.new.left
        (EndedAndTold at.old.action at.old.home (W.run service.new.world)) }
    ensures committed { OnOk result
        (is_committed at.old.action (W.run service.new.world).past ≡ true) }
    ensures undone { OnErr result (Goes W.sees (settles at.old.action)
        (W.run service.old.world) (W.run service.new.world)) }
    ensures stopped { IfErr result (ComesToNothing W.sees (W.run service.old.world)
        (steps.Commit at.old.action)) }
    ensures action { at.new.action ≡ at.old.action }
    ensures reached { at.new.reached.items ≡ at.old.reached.items }
    ensures room { OnOk result (HasRoomAgain at.new.reached) }
{
    let room = at.reached.reserve(at.reached.len());
    let left = at.left.take();
    let (committed, left) = commit_if(service, at.home, &at.action, left, room);
    at.keep(left);
    committed
}

/// Commits the action if there was room, and else aborts it. Tells the guardian.
fn commit_if<W: MakesOwnSteps + Drop>(
    service: &mut Service<W>,
    guardian: u32,
    action: &Name,
    left: Option<CallFault>,
    room: Result<(), AllocError>,
) -> (Result<(), CallFault>, Option<CallFault>)
    ensures ends { Settles W.sees (finishes action.now) (W.run service.old.world)
        (W.run service.new.world) left result.1
        (EndedAndTold action.now guardian (W.run service.new.world)) }
    ensures committed { OnOk result.0
        (is_committed action.now (W.run service.new.world).past ≡ true) }
    ensures undone { OnErr result.0 (Goes W.sees (settles action.now) (W.run service.old.world)
        (W.run service.new.world)) }
    ensures stopped { IfErr result.0 (ComesToNothing W.sees (W.run service.old.world)
        (steps.Commit action.now)) }
    ensures room { OnOk result.0 (IsOk room) }
{
    match room {
        Ok(()) => commit_and_tell(service, guardian, action, left),
        Err(refused) => (
            Err(CallFault::from(refused)),
            abort_and_tell(service, guardian, action, left),
        ),
    }
}

/// Runs two works at once, each in an arm of the action. An arm is committed if its work succeeds, and else aborted.
pub(crate) fn together_in<W: RunsArms, A: Work<W> + Send, B: Work<W> + Send>(
    service: &mut Service<W>,
    at: &mut Place,
    alloc: Global,
    one: &mut A,
    other: &mut B,
) -> Result<(Result<A::Value, A::Error>, Result<B::Value, B::Error>), CallFault>
where
    A::Value: Send,
    A::Error: Send,
    B::Value: Send,
    B::Error: Send,
    requires there { began_at at.old.home at.old.action (W.run service.old.world).past ≡ true }
    ensures action { at.new.action ≡ at.old.action }
    ensures home { at.new.home ≡ at.old.home }
    ensures reached { Includes at.old.reached.items at.new.reached.items }
    ensures works { ∥ Works W.sees at.old.action (W.run service.old.world) (W.run service.new.world)
        at.old.left at.new.left ∥₁ }
    ensures ran { IfOk result (λ gave. RanTogether W.sees A.does B.does A.Error.from_gives
        B.Error.from_gives at.old.action (W.run service.old.world) (W.run service.new.world)
        one.old one.new other.old other.new gave.0 gave.1) }
    ensures not { IfErr result (λ fault. RanNot W.sees at.old.action (W.run service.old.world)
        (W.run service.new.world) fault) }
    ensures undone { OnErr result (CommitsNoChild at.old.action (W.run service.old.world)
        (W.run service.new.world)) }
    ensures same { OnErr result ((one.new ≡ one.old) × (other.new ≡ other.old)) }
{
    let (mut first, mut second) = begin_arms(service, at, alloc)?;
    match run_in_arms(service, &mut first, one, &mut second, other) {
        Ok((gave, also_gave)) => {
            at.join(first, gave.is_ok(), second, also_gave.is_ok());
            Ok((gave, also_gave))
        }
        Err(fault) => {
            call_off(service, at, &first.action, &second.action);
            Err(CallFault::Failed(fault))
        }
    }
}

/// Runs two works at once, each in its arm. After an error neither has run.
fn run_in_arms<W: RunsArms, A: Work<W> + Send, B: Work<W> + Send>(
    service: &mut Service<W>,
    first: &mut Place,
    one: &mut A,
    second: &mut Place,
    other: &mut B,
) -> Result<(Result<A::Value, A::Error>, Result<B::Value, B::Error>), Fault>
where
    A::Value: Send,
    A::Error: Send,
    B::Value: Send,
    B::Error: Send,
    requires first { began_at first.old.home first.old.action (W.run service.old.world).past
        ≡ true }
    requires second { began_at second.old.home second.old.action (W.run service.old.world).past
        ≡ true }
    ensures run { IfOk result (λ gave. HaveRun W.sees
        (GivesInArm W.sees A.does A.Error.from_gives gave.0)
        (GivesInArm W.sees B.does B.Error.from_gives gave.1) (W.run service.old.world)
        (W.run service.new.world) (first.old, one.old) (first.new, one.new)
        (second.old, other.old) (second.new, other.new)) }
    ensures err { OnErr result (W.run service.new.world ≡ W.run service.old.world) }
    ensures first { OnErr result (first.new ≡ first.old) }
    ensures one { OnErr result (one.new ≡ one.old) }
    ensures second { OnErr result (second.new ≡ second.old) }
    ensures other { OnErr result (other.new ≡ other.old) }
{
    let (mut gave, mut also_gave) = (None, None);
    let mut one = in_arm(first, one, &mut gave);
    let mut other = in_arm(second, other, &mut also_gave);
    run_arms(&mut service.world, &mut one, &mut other)?;
    Ok((gave.unwrap(), also_gave.unwrap()))
}

/// The work, before it runs in the arm.
fn in_arm<'j, W: MakesOwnSteps + Drop, J: Work<W>>(
    at: &'j mut Place,
    work: &'j mut J,
    done: &'j mut Option<Result<J::Value, J::Error>>,
) -> InArm<'j, W, J>
    ensures same_place { result.at.ghost_name ≡ at.entry.ghost_name }
    ensures same_work { result.work.ghost_name ≡ work.entry.ghost_name }
    ensures same_done { result.done.ghost_name ≡ done.entry.ghost_name }
    ensures at { result.at.now ≡ at.old }
    ensures work { result.work.now ≡ work.old }
{
    InArm { at, work, done }
}

/// Begins two arms of the action at its home, once there is room for what each reaches.
fn begin_arms<W: MakesOwnSteps + Drop>(
    service: &mut Service<W>,
    at: &Place,
    alloc: Global,
) -> Result<(Place, Place), CallFault>
    ensures call { IsCall W.run W.sees W.leaves (arms_of at.now.action) BeganBoth
        service.old.world service.new.world result }
    ensures homes { IfOk result
        (λ arms. (arms.0.home ≡ at.now.home) × (arms.1.home ≡ at.now.home)) }
    ensures reached { IfOk result (λ arms. (arms.0.reached.items ≡ at.now.reached.items)
        × (arms.1.reached.items ≡ at.now.reached.items)) }
    ensures left { IfOk result (λ arms. (arms.0.left ≡ None) × (arms.1.left ≡ None)) }
{
    let kinds = two_subs(alloc)?;
    let first = at.reached.clone()?;
    let second = at.reached.clone()?;
    let (one, other) = both(service.begin_arms(&at.action, kinds)?);
    Ok((arm_at(at.home, one, first), arm_at(at.home, other, second)))
}

/// The kinds of two arms that are subactions.
fn two_subs(alloc: Global) -> Result<ArmKinds, AllocError>
    ensures { IfOk result (λ kinds. kinds ≡ arm_kinds.Sub ∷ arm_kinds.Sub ∷ []) }
{
    let mut kinds = ArmKinds::new(alloc);
    kinds.push(ArmKind::Sub)?;
    kinds.push(ArmKind::Sub)?;
    Ok(kinds)
}

/// The two names of the list.
fn both(names: Names) -> (Name, Name)
    requires { (one other : ActionName) × (names ≡ one ∷ other ∷ []) }
    ensures { names ≡ result.0 ∷ result.1 ∷ [] }
{
    let mut names = names.into_vec();
    match (names.pop(), names.pop()) {
        (Some(other), Some(one)) => (one, other),
        _ => unreachable!(),
    }
}

/// An arm that has just begun.
fn arm_at(home: u32, action: Name, reached: Vec<u32>) -> Place
    ensures home { result.home ≡ home }
    ensures action { result.action ≡ action }
    ensures reached { result.reached ≡ reached }
    ensures left { result.left ≡ None }
{
    Place {
        action,
        home,
        reached,
        left: None,
    }
}

/// Aborts both arms and tells their guardian.
fn call_off<W: MakesOwnSteps + Drop>(
    service: &mut Service<W>,
    at: &mut Place,
    one: &Name,
    other: &Name,
)
    ensures ends { Settles W.sees (settles_both one.now other.now) (W.run service.old.world)
        (W.run service.new.world) at.old.left at.new.left
        (EndedAndTold one.now at.old.home (W.run service.new.world)
        × EndedAndTold other.now at.old.home (W.run service.new.world)) }
    ensures action { at.new.action ≡ at.old.action }
    ensures home { at.new.home ≡ at.old.home }
    ensures reached { at.new.reached ≡ at.old.reached }
{
    let left = at.left.take();
    let left = abort_and_tell(service, at.home, one, left);
    let left = abort_and_tell(service, at.home, other, left);
    at.keep(left);
}
