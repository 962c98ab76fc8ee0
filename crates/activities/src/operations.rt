ghost use Rattle.std.specs.Prelude.{◌≡◌, ◌⊎◌, [], ◌∷◌, IsTrue, IfErr, IfOk, OnErr, OnOk};
ghost use Rattle.script_model.specs.Resolved.{binding_is_bound};
ghost use Rattle.activities.specs.Bodies.{IsOp, IsOutcome, sizes};
ghost use Rattle.activities.specs.Failing.{EndOrFail, IsCause};
ghost use Rattle.activities.specs.Making.{Makes};
ghost use Rattle.activities.specs.Performing.{IsAfterAny, by_reply, outcome_of, step_for};

use crate::activity_steps::ActivitySteps;
use crate::open_action::OpenAction;
use atomic_types::Reply;
use frames::Frames;
use run_model::Answer;
use script_model::{Binding, ObjectCall};
use std::alloc::AllocError;
use stepping::Fault;

/// What came of an operation.
#[derive(Drop)]
pub(crate) enum Outcome {
    Granted,
    Signalled,
    Refused,
    Waits,
}

/// Makes an operation, and binds what it replies. After an error the variables are as they were. The world is as it
/// was too, unless memory ran out for a variable: then the step was made.
#[tactic(auto, using(crate::proofs::Performing::comings))]
pub(crate) fn perform<W: ActivitySteps>(
    world: &mut W,
    action: &OpenAction,
    frames: &mut Frames,
    call: &ObjectCall,
) -> Result<Outcome, Fault>
    requires call { IsOp (sizes frames.old) call.now }
    ensures makes { Makes (action.now.name ∷ []) [] (W.run world.old) (W.run world.new) }
    ensures frames { IfOk result
        (λ done. IsOutcome done call.now.binding (sizes frames.old) (sizes frames.new)) }
    ensures made { OnOk result (W.alone → IsAfterAny
        (step_for action.now.name action.now.home frames.old call.now) (W.run world.old)
        (W.run world.new)) }
    ensures outcome { IfOk result (λ done. W.alone → (done, frames.new)
        ≡ outcome_of (W.run world.old) frames.old call.now.binding
        (step_for action.now.name action.now.home frames.old call.now)) }
    ensures failed { IfErr result (IsCause W.fails) }
    ensures over { EndOrFail W.alone W.fails []
        (W.run world.old) (W.run world.new) }
    ensures unbound { OnErr result (frames.new ≡ frames.old) }
    ensures err { OnErr result (W.alone → (W.run world.new ≡ W.run world.old)
        ⊎ IsAfterAny (step_for action.now.name action.now.home frames.old call.now)
        (W.run world.old) (W.run world.new)) }
{
    let Some(operation) = frames.operation(&call.operation)? else {
        return Ok(Outcome::Refused);
    };
    match action.perform(world, call.object, operation)? {
        Answer::Granted(reply) => Ok(bind(frames, call.binding, reply)?),
        Answer::Waits(_) => Ok(Outcome::Waits),
        _ => Ok(Outcome::Refused),
    }
}

#[tactic(auto, using(frames::proofs::Counting::sizes_after, crate::proofs::Performing::replies))]
fn bind(frames: &mut Frames, binding: Binding, reply: Reply) -> Result<Outcome, AllocError>
    requires { IsTrue (binding_is_bound (sizes frames.old) binding) }
    ensures sizes { IfOk result
        (λ done. IsOutcome done binding (sizes frames.old) (sizes frames.new)) }
    ensures outcome { IfOk result (λ done. (done, frames.new) ≡ by_reply frames.old binding reply) }
    ensures err { OnErr result (frames.new ≡ frames.old) }
{
    if matches!(reply, Reply::Signals(_)) {
        return Ok(Outcome::Signalled);
    }
    if frames.bind(binding, reply)? {
        Ok(Outcome::Granted)
    } else {
        Ok(Outcome::Refused)
    }
}
