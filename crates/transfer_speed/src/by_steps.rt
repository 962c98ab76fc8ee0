//! Transfers by steps of a world.
use crate::fault::SpeedFault;
use crate::transfers::{Change, FIELD, Local, Transfer, new_world};
use action_names::Name;
use run_model::{Answer, Op, Step, Value};
use service::{get, set};
use std::alloc::Global;

/// A new world in which so many transfers are made.
pub(crate) fn make(alloc: Global, count: u32) -> Result<Local, SpeedFault> {
    let mut world = new_world(alloc)?;
    for number in 1..=count {
        make_one(alloc, &mut world, Transfer::numbered(number))?;
    }
    Ok(world)
}

/// Makes a transfer.
fn make_one(alloc: Global, world: &mut Local, transfer: Transfer) -> Result<(), SpeedFault> {
    let top = begin(world, Step::Top(transfer.home.account.guardian))?;
    update(alloc, world, &top, transfer.home)?;
    let other = transfer.other.account.guardian;
    let sub = begin(world, Step::Call(top.copy()?, other))?;
    update(alloc, world, &sub, transfer.other)?;
    accept(world, Step::Commit(sub.copy()?))?;
    accept(world, Step::Tell(other, sub))?;
    commit(world, &top, transfer.guardians())
}

/// Reads an account and writes it.
fn update(
    alloc: Global,
    world: &mut Local,
    action: &Name,
    change: Change,
) -> Result<(), SpeedFault> {
    operate(world, action, change, get(alloc, FIELD)?)?;
    let value = Value::Int(change.value);
    operate(world, action, change, set(alloc, FIELD, value)?)
}

fn operate(
    world: &mut Local,
    action: &Name,
    change: Change,
    operation: Op,
) -> Result<(), SpeedFault> {
    accept(world, Step::Op(action.copy()?, change.account, operation))?;
    Ok(())
}

/// Commits a top action by two phases, and tells the guardians.
fn commit(world: &mut Local, top: &Name, guardians: [u32; 2]) -> Result<(), SpeedFault> {
    accept(world, Step::Close(top.copy()?))?;
    for guardian in guardians {
        accept(world, Step::Prepare(guardian, top.copy()?))?;
    }
    accept(world, Step::Decide(top.copy()?))?;
    for guardian in guardians {
        accept(world, Step::Tell(guardian, top.copy()?))?;
    }
    Ok(())
}

/// Makes a step that begins an action, and gives its name.
fn begin(world: &mut Local, step: Step) -> Result<Name, SpeedFault> {
    match accept(world, step)? {
        Answer::Began(names) => names.into_vec().pop().ok_or(SpeedFault::Step),
        _ => Err(SpeedFault::Step),
    }
}

/// Makes a step, which has to be accepted.
fn accept(world: &mut Local, step: Step) -> Result<Answer, SpeedFault> {
    let answer = world.step(&step)?;
    if answer.is_accepted() {
        Ok(answer)
    } else {
        Err(SpeedFault::Step)
    }
}
