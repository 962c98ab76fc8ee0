ghost use Rattle.std.specs.Prelude.{◌≡◌, [], ◌∷◌, None, length, option_map, reverse, IfErr, IfOk, IfSome, OnErr, OnOk};
ghost use Rattle.run_model.specs.declared.step.Step.TheVariants.{Arms};
ghost use Rattle.activities.specs.Bodies.{body_of, kind_of, kinds};
ghost use Rattle.activities.specs.Failing.{IsCause};
ghost use Rattle.activities.specs.Making.{Begins, Makes};
ghost use Rattle.activities.specs.Serial.{after, asked, waiting_by};

use crate::activity_steps::ActivitySteps;
use crate::open_action::{OpenAction, make};
use action_names::Name;
use run_model::{Answer, ArmKind, ArmKinds, Step};
use script_model::{Arm, Statement};
use std::alloc::{AllocError, Global};
use stepping::Fault;

/// Begins the arms together, and gives their names, that of the first arm last; none where that is refused.
/// Then, and after an error, nothing has begun.
pub(crate) fn begin_arms<W: ActivitySteps>(
    alloc: Global,
    world: &mut W,
    action: &OpenAction,
    arms: &[Arm],
) -> Result<Option<Vec<Name>>, Fault>
    ensures makes { Makes (action.now.name ∷ []) [] (W.run world.old) (W.run world.new) }
    ensures together { OnOk result (W.alone
        → W.run world.new ≡ after (Arms action.now.name (kinds arms.now)) (W.run world.old)) }
    ensures each { IfOk result
        (λ found. IfSome found (λ names. length names.items ≡ length arms.now)) }
    ensures began { IfOk result (λ found. IfSome found
        (λ names. Begins (action.now.name ∷ []) [] names.items (W.run world.old)
        (W.run world.new))) }
    ensures waiting { IfOk result
        (λ found. W.alone → option_map (λ names. reverse names.items) found
        ≡ waiting_by (asked (Arms action.now.name (kinds arms.now)) (W.run world.old))) }
    ensures failed { IfErr result (IsCause W.fails) }
    ensures none { IfOk result
        (λ found. found ≡ None → W.run world.new ≡ W.run world.old) }
    ensures err { OnErr result (W.run world.new ≡ W.run world.old) }
{
    let kinds = arm_kinds(alloc, arms)?;
    let answer = make(world, Step::Arms(action.name.copy()?, kinds))?;
    Ok(waiting_by(answer))
}

/// The names that an answer began, that of the first arm last.
fn waiting_by(answer: Answer) -> Option<Vec<Name>>
    ensures { option_map (λ names. reverse names.items) result ≡ waiting_by answer }
{
    match answer {
        Answer::Began(names) => {
            let mut names = names.into_vec();
            names.reverse();
            Some(names)
        }
        _ => None,
    }
}

fn arm_kinds(alloc: Global, arms: &[Arm]) -> Result<ArmKinds, AllocError>
    ensures { IfOk result (λ them. them ≡ kinds arms.now) }
{
    let mut kinds = ArmKinds::new(alloc);
    for arm in arms {
        kinds.push(arm_kind(arm))?;
    }
    Ok(kinds)
}

fn arm_kind(arm: &Arm) -> ArmKind
    ensures { result ≡ kind_of arm.now }
{
    match arm {
        Arm::Sub(_) => ArmKind::Sub,
        Arm::Top(_) => ArmKind::Top,
    }
}

pub(crate) fn arm_body(arm: &Arm) -> &[Statement]
    ensures { result.now ≡ body_of arm.now }
{
    match arm {
        Arm::Sub(body) => body.as_slice(),
        Arm::Top(body) => body.as_slice(),
    }
}
