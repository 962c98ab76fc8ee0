//! Steps of which a caller gives the line, or the parts.
ghost use Rattle.std.specs.Prelude.{IfOk, IfSome, IsErrOf};
ghost use Rattle.run_model.specs.Texts.{Spells};
ghost use Rattle.run_model.specs.declared.step.Step.TheVariants as step;
ghost use Rattle.argus_c.specs.declared.reading.Unread.TheVariants as unread;
ghost use Rattle.argus_c.specs.Sessions.{IsNamed, IsNoName, IsNoStep, IsOfAction, operation_line};

use crate::operations;
use itoa::Buffer;
use run_model::{Name, NameFault, ObjectId, Step};
use std::alloc::{AllocError, AllocFailed, Global};

/// How long a part of a line is at most that is read alone.
const MAX_PART: usize = 4_000;

/// Why no step was read.
#[derive(Clone, Copy, Drop)]
pub(crate) enum Unread {
    Bad,
    Memory,
}

impl From<AllocError> for Unread {
    ghost use Rattle.std.specs.Prelude.{◌≡◌};
    ghost use Rattle.argus_c.specs.declared.reading.Unread.TheVariants.{Memory};

    ghost from_gives = { λ _ e. e ≡ Memory };

    fn from(_refused: AllocError) -> Unread {
        Unread::Memory
    }
}

impl<T: Drop> From<AllocFailed<T>> for Unread {
    ghost use Rattle.std.specs.Prelude.{◌≡◌};
    ghost use Rattle.argus_c.specs.declared.reading.Unread.TheVariants.{Memory};

    ghost from_gives = { λ _ e. e ≡ Memory };

    fn from(_refused: AllocFailed<T>) -> Unread {
        Unread::Memory
    }
}

/// The step that the line spells.
pub(crate) fn step_of_line(alloc: Global, line: &[u8]) -> Result<Step, Unread>
    ensures found { IfOk result (Spells line.now) }
    ensures bad { IsErrOf result unread.Bad → IsNoStep (Spells line.now) }
{
    match Step::read(alloc, line)? {
        Some(step) => Ok(step),
        None => Err(Unread::Bad),
    }
}

/// The step that the line of an operation spells.
pub(crate) fn operation(
    alloc: Global,
    action: &[u8],
    guardian: u32,
    number: u32,
    wanted: &[u8],
) -> Result<Step, Unread>
    ensures found { IfOk result (Spells (operation_line action.now guardian number wanted.now)) }
    ensures bad { IsErrOf result unread.Bad
        → IsNoStep (Spells (operation_line action.now guardian number wanted.now)) }
{
    match by_parts(alloc, action, guardian, number, wanted) {
        Some(step) => Ok(step),
        None => by_line(alloc, action, guardian, number, wanted),
    }
}

/// The same, where each part is short and spells what stands there in a step, which is faster.
fn by_parts(alloc: Global, action: &[u8], guardian: u32, number: u32, wanted: &[u8]) -> Option<Step>
    ensures { IfSome result (Spells (operation_line action.now guardian number wanted.now)) }
{
    if guardian == 0 || number == 0 || MAX_PART < action.len() || MAX_PART < wanted.len() {
        return None;
    }
    let Ok(action) = named(alloc, action) else {
        return None;
    };
    let operation = operations::operation(alloc, wanted)?;
    let object = ObjectId { guardian, number };
    Some(Step::Op(action, object, operation))
}

/// The same by the line itself, whatever the parts are.
fn by_line(
    alloc: Global,
    action: &[u8],
    guardian: u32,
    number: u32,
    wanted: &[u8],
) -> Result<Step, Unread>
    ensures found { IfOk result (Spells (operation_line action.now guardian number wanted.now)) }
    ensures bad { IsErrOf result unread.Bad
        → IsNoStep (Spells (operation_line action.now guardian number wanted.now)) }
{
    let mut line = Vec::new(alloc);
    line.extend_from_slice(b"op ")?;
    line.extend_from_slice(action)?;
    line.push(b' ')?;
    line.extend_from_slice(Buffer::new().format(guardian).as_bytes())?;
    line.push(b'/')?;
    line.extend_from_slice(Buffer::new().format(number).as_bytes())?;
    line.push(b' ')?;
    line.extend_from_slice(wanted)?;
    step_of_line(alloc, line.as_slice())
}

pub(crate) fn nested_top(alloc: Global, action: &[u8]) -> Result<Step, Unread>
    ensures found { IfOk result (IsOfAction action.now step.NestedTop) }
    ensures bad { IsErrOf result unread.Bad → IsNoName action.now }
{
    Ok(Step::NestedTop(named(alloc, action)?))
}

pub(crate) fn call(alloc: Global, action: &[u8], guardian: u32) -> Result<Step, Unread>
    ensures found { IfOk result (IsOfAction action.now (λ a. step.Call a guardian)) }
    ensures bad { IsErrOf result unread.Bad → IsNoName action.now }
{
    Ok(Step::Call(named(alloc, action)?, guardian))
}

pub(crate) fn commit(alloc: Global, action: &[u8]) -> Result<Step, Unread>
    ensures found { IfOk result (IsOfAction action.now step.Commit) }
    ensures bad { IsErrOf result unread.Bad → IsNoName action.now }
{
    Ok(Step::Commit(named(alloc, action)?))
}

pub(crate) fn close(alloc: Global, top: &[u8]) -> Result<Step, Unread>
    ensures found { IfOk result (IsOfAction top.now step.Close) }
    ensures bad { IsErrOf result unread.Bad → IsNoName top.now }
{
    Ok(Step::Close(named(alloc, top)?))
}

pub(crate) fn prepare(alloc: Global, guardian: u32, top: &[u8]) -> Result<Step, Unread>
    ensures found { IfOk result (IsOfAction top.now (λ a. step.Prepare guardian a)) }
    ensures bad { IsErrOf result unread.Bad → IsNoName top.now }
{
    Ok(Step::Prepare(guardian, named(alloc, top)?))
}

pub(crate) fn decide(alloc: Global, top: &[u8]) -> Result<Step, Unread>
    ensures found { IfOk result (IsOfAction top.now step.Decide) }
    ensures bad { IsErrOf result unread.Bad → IsNoName top.now }
{
    Ok(Step::Decide(named(alloc, top)?))
}

pub(crate) fn abort(alloc: Global, action: &[u8]) -> Result<Step, Unread>
    ensures found { IfOk result (IsOfAction action.now step.Abort) }
    ensures bad { IsErrOf result unread.Bad → IsNoName action.now }
{
    Ok(Step::Abort(named(alloc, action)?))
}

pub(crate) fn tell(alloc: Global, guardian: u32, action: &[u8]) -> Result<Step, Unread>
    ensures found { IfOk result (IsOfAction action.now (λ a. step.Tell guardian a)) }
    ensures bad { IsErrOf result unread.Bad → IsNoName action.now }
{
    Ok(Step::Tell(guardian, named(alloc, action)?))
}

/// The name that this text is.
fn named(alloc: Global, text: &[u8]) -> Result<Name, Unread>
    ensures found { IfOk result (IsNamed text.now) }
    ensures bad { IsErrOf result unread.Bad → IsNoName text.now }
{
    match Name::at_front(alloc, text) {
        Ok((name, [])) => Ok(name),
        Ok(_) => Err(Unread::Bad),
        Err(NameFault::NotAName) => Err(Unread::Bad),
        Err(NameFault::TooDeep) => unreachable!(),
        Err(NameFault::Memory) => Err(Unread::Memory),
    }
}
