//! Arms that run apart: each is handed over once it has begun, and comes back once it has ended.
ghost use Rattle.std.specs.Prelude.{◌≡◌, [], ◌∷◌, ◌++◌, Ok, Err, IfErr, IfOk, IsTrue, OnOk, length, map, reverse, if◌then◌else◌};
ghost use Rattle.action_names.specs.Names.{Name as Named, has_name};
ghost use Rattle.script_model.specs.declared.checked.Checked.{Checked as Script};
ghost use Rattle.activities.specs.Acting.{acting};
ghost use Rattle.activities.specs.Apart.{AllRunnable, ArmRan, GoOn, IsLeaving, IsRunnable, all_gone};
ghost use Rattle.activities.specs.Apart.{are_subs, arm_taken_in, arms_taken_in, begun_name, begun_names};
ghost use Rattle.activities.specs.Apart.{ended_name, gone_beside, has_left, leaves};
ghost use Rattle.activities.specs.Bodies.{AreArms, IsOf, body_of, is_sub, sizes};
ghost use Rattle.activities.specs.Ends.{commits};
ghost use Rattle.activities.specs.Failing.{EndOrFail, IsCause};
ghost use Rattle.activities.specs.Making.{Makes, Tells};
ghost use Rattle.activities.specs.Serial.{ended};
ghost use Rattle.activities.specs.declared.flow.Flow.TheVariants.{Ended};
ghost use Rattle.layer_contracts.specs.declared.guardian.Fault.TheVariants.{Memory};

use crate::activity::{Activity, has_committed};
use crate::activity_steps::ActivitySteps;
use crate::arms::arm_body;
use crate::flow::{Flow, Reach};
use crate::open_action::OpenAction;
use action_names::Name;
use frames::Frames;
use script_model::{Arm, Checked, Statement, body_copy};
use sqlite_items::Items;
use std::alloc::{AllocError, Global};
use stepping::Fault;

/// An arm that has begun and has not run, with its body and its variables.
#[derive(Drop)]
pub struct BegunArm {
    pub(crate) action: OpenAction,
    pub(crate) frames: Frames,
    pub(crate) body: Items<Statement>,
    is_sub: bool,
}

/// An arm that has ended.
#[derive(Drop)]
pub struct EndedArm {
    pub(crate) action: OpenAction,
    is_sub: bool,
    ended: Result<Flow, Fault>,
}

impl BegunArm {
    /// The arm's action.
    pub fn name(&self) -> &Name
        ensures { result.now ≡ begun_name self.now }
    {
        self.action.name.as_name()
    }
}

impl EndedArm {
    /// The arm's action.
    pub fn name(&self) -> &Name
        ensures { result.now ≡ ended_name self.now }
    {
        self.action.name.as_name()
    }
}

/// Runs an arm of a script and ends it. It may begin so many statements and turns of `repeat` as a client. An arm
/// that would leave its `coenter` after another has left it aborts. After an error it aborts too.
#[tactic(auto, using(crate::proofs::Making::steps))]
pub fn run_arm<W: ActivitySteps>(
    alloc: Global,
    world: &mut W,
    script: &Checked,
    arm: BegunArm,
) -> EndedArm
    requires script { IsOf W.scripts script.now }
    requires body { IsRunnable script.now arm }
    ensures name { ended_name result ≡ begun_name arm }
    ensures makes { Makes (begun_name arm ∷ []) (begun_name arm ∷ [])
        (W.run world.old) (W.run world.new) }
    ensures told { IfOk result.ended (λ end. Tells (commits end) (begun_name arm)
        (W.run world.old) (W.run world.new)) }
    ensures sub { result.is_sub ≡ arm.is_sub }
    ensures means { IfOk result.ended (λ end. W.alone
        → ArmRan script.now arm (W.run world.old) (W.run world.new) result.action end) }
    ensures failed { IfErr result.ended (IsCause W.fails) }
    ensures over { EndOrFail W.alone W.fails (begun_name arm ∷ [])
        (W.run world.old) (W.run world.new) }
{
    let BegunArm {
        action,
        frames,
        body,
        is_sub,
    } = arm;
    let mut action = action;
    let mut frames = frames;
    let mut activity = Activity::new(alloc, script);
    let ran = activity.body(world, &mut action, &mut frames, body.as_slice());
    let ended = end_arm(world, &action, ran);
    EndedArm {
        action,
        is_sub,
        ended,
    }
}

/// Ends an arm as its body ended.
#[tactic(auto, using(crate::proofs::Making::steps))]
fn end_arm<W: ActivitySteps>(
    world: &mut W,
    action: &OpenAction,
    ran: Result<Flow, Fault>,
) -> Result<Flow, Fault>
    ensures makes { Makes (action.now.name ∷ []) (action.now.name ∷ [])
        (W.run world.old) (W.run world.new) }
    ensures told { IfOk result
        (λ end. Tells (commits end) action.now.name (W.run world.old) (W.run world.new)) }
    ensures wanted { IfOk result (λ end. IsTrue (commits end) → ran ≡ Ok end) }
    ensures fault { IfErr ran (λ fault. result ≡ Err fault) }
    ensures means { IfOk ran (λ flow. IfOk result
        (λ end. W.alone → record { world = W.run world.new; flow = end }
        ≡ ended (acting action.now) flow (W.run world.old))) }
    ensures leaving { IfOk ran (λ flow. IsTrue (leaves flow)
        → IsLeaving W.claims W.settles result world.old world.new) }
    ensures failed { IfOk ran (λ flow. IfErr result (IsCause W.fails)) }
    ensures over { EndOrFail W.alone W.fails (action.now.name ∷ [])
        (W.run world.old) (W.run world.new) }
{
    match ran {
        Ok(flow) if is_left_by(&flow) => leave(world, action, flow),
        Ok(flow) => action.end(world, flow),
        Err(fault) => {
            let _ = action.abort(world);
            Err(fault)
        }
    }
}

/// Ends an arm that leaves its `coenter`, unless another has left it.
#[tactic(auto, using(crate::proofs::Making::steps))]
fn leave<W: ActivitySteps>(world: &mut W, action: &OpenAction, flow: Flow) -> Result<Flow, Fault>
    ensures makes { Makes (action.now.name ∷ []) (action.now.name ∷ [])
        (W.run world.old) (W.run world.new) }
    ensures told { IfOk result
        (λ end. Tells (commits end) action.now.name (W.run world.old) (W.run world.new)) }
    ensures wanted { IfOk result (λ end. IsTrue (commits end) → end ≡ flow) }
    ensures means { IfOk result (λ end. W.alone → record { world = W.run world.new; flow = end }
        ≡ ended (acting action.now) flow (W.run world.old)) }
    ensures leaving { IsLeaving W.claims W.settles result world.old world.new }
    ensures failed { IfErr result (IsCause W.fails) }
    ensures over { EndOrFail W.alone W.fails (action.now.name ∷ [])
        (W.run world.old) (W.run world.new) }
{
    if !world.claim() {
        action.abort(world)?;
        return Ok(Flow::Aborted);
    }
    let ended = action.end(world, flow);
    world.settle(has_left(&ended));
    ended
}

/// The arms, each with a copy of its body and of the variables. The last of the names is that of the first arm.
pub(crate) fn begun_arms(
    alloc: Global,
    action: &OpenAction,
    frames: &Frames,
    arms: &[Arm],
    waiting: &[Name],
) -> Result<Vec<BegunArm>, AllocError>
    requires each { length waiting.now ≡ length arms.now }
    ensures each { IfOk result (λ begun. length begun.items ≡ length arms.now) }
    ensures named { IfOk result (λ begun. begun_names begun.items ≡ reverse waiting.now) }
    ensures subs { IfOk result (λ begun. are_subs begun.items ≡ map is_sub arms.now) }
    ensures among { IfOk result (λ begun. (a : Named)
        → IsTrue (has_name (begun_names begun.items) a) → IsTrue (has_name waiting.now a)) }
    ensures runnable { IfOk result (λ begun. (script : Script)
        → AreArms script (sizes frames.now) arms.now → AllRunnable script begun.items) }
{
    let mut begun = Vec::with_capacity(alloc, arms.len())?;
    for arm in arms {
        let name = &waiting[waiting.len() - 1 - begun.len()];
        let one = begun_arm(alloc, action, frames, arm, name)?;
        add(&mut begun, one)?;
    }
    Ok(begun)
}

fn begun_arm(
    alloc: Global,
    action: &OpenAction,
    frames: &Frames,
    arm: &Arm,
    name: &Name,
) -> Result<BegunArm, AllocError>
    ensures name { IfOk result (λ begun. begun.action.name ≡ name.now) }
    ensures home { IfOk result (λ begun. begun.action.home ≡ action.now.home) }
    ensures sub { IfOk result (λ begun. begun.is_sub ≡ is_sub arm.now) }
    ensures homes { IfOk result (λ begun. begun.action.reached.homes.keys ≡ action.now.home ∷ []) }
    ensures participants { IfOk result
        (λ begun. begun.action.reached.participants.keys ≡ action.now.home ∷ []) }
    ensures starters { IfOk result (λ begun. begun.action.reached.starters ≡ (if is_sub arm.now
        then action.now.reached.starters
        else action.now.reached.starters ++ action.now.name ∷ [])) }
    ensures frames { IfOk result (λ begun. begun.frames ≡ frames.now) }
    ensures body { IfOk result (λ begun. begun.body ≡ body_of arm.now) }
{
    let reached = action.reached_by_arm(alloc, arm)?;
    Ok(BegunArm {
        action: OpenAction::new(name.copy()?, action.home, reached),
        frames: frames.copy()?,
        body: body_copy(alloc, arm_body(arm))?,
        is_sub: matches!(arm, Arm::Sub(_)),
    })
}

fn add(begun: &mut Vec<BegunArm>, one: BegunArm) -> Result<(), AllocError>
    ensures { OnOk result (begun.new.items ≡ begun.old.items ++ one ∷ []) }
{
    begun.push(one)?;
    Ok(())
}

/// What the action learns of arms that have ended, and how its `coenter` goes on: as the arm that has left it says.
/// Of several faults the lowest arm's is answered.
pub(crate) fn flow_of(action: &mut OpenAction, arms: Vec<EndedArm>) -> Result<Flow, Fault>
    ensures name { action.new.name ≡ action.old.name }
    ensures home { action.new.home ≡ action.old.home }
    ensures flow { IfOk result
        (λ flow. Ok flow ≡ all_gone (Ok Ended) (map (λ arm. arm.ended) arms.items)) }
    ensures goes_on { GoOn (Ok Ended) (map (λ arm. arm.ended) arms.items) result }
    ensures taken { OnOk result (acting action.new ≡ arms_taken_in (acting action.old) arms.items) }
{
    let mut flow = Ok(Flow::Ended);
    for arm in arms {
        flow = beside(flow, learn(action, arm));
    }
    flow
}

/// What the action learns of an arm, and how it ended.
fn learn(action: &mut OpenAction, arm: EndedArm) -> Result<Flow, Fault>
    ensures name { action.new.name ≡ action.old.name }
    ensures home { action.new.home ≡ action.old.home }
    ensures taken { OnOk result (acting action.new ≡ arm_taken_in (acting action.old) arm) }
    ensures flow { IfOk result (λ flow. arm.ended ≡ Ok flow) }
    ensures fault { IfErr arm.ended (λ fault. result ≡ Err fault) }
    ensures memory { IfOk arm.ended (λ flow. IfErr result (λ fault. fault ≡ Memory)) }
{
    let EndedArm {
        action: child,
        is_sub,
        ended,
    } = arm;
    if !is_sub {
        return ended;
    }
    let taken = action.take_in(&child, has_committed(&ended));
    let flow = ended?;
    taken?;
    Ok(flow)
}

/// How arms go on after one more of them.
fn beside(arms: Result<Flow, Fault>, arm: Result<Flow, Fault>) -> Result<Flow, Fault>
    ensures { result ≡ gone_beside arms arm }
{
    let flow = arms?;
    let other = arm?;
    if matches!(flow, Flow::Ended) && is_left_by(&other) {
        Ok(other)
    } else {
        Ok(flow)
    }
}

/// Whether an arm that ended so has left its `coenter`.
pub(crate) fn has_left(ended: &Result<Flow, Fault>) -> bool
    ensures { result ≡ has_left ended.now }
{
    match ended {
        Ok(flow) => is_left_by(flow),
        Err(_) => false,
    }
}

/// Whether an arm that ends so leaves its `coenter`.
pub(crate) fn is_left_by(flow: &Flow) -> bool
    ensures { result ≡ leaves flow.now }
{
    matches!(flow, Flow::Returned(_) | Flow::Outwards(Reach::TopAction))
}
