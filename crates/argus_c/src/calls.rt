//! A call for each kind of step.
ghost use Rattle.std.specs.Prelude.{◌≡◌};
ghost use Rattle.run_model.specs.Texts.{Spells};
ghost use Rattle.run_model.specs.declared.step.Step.TheVariants as step;
ghost use Rattle.argus_c.specs.Calls.{AnswersStep, IsHeld};
ghost use Rattle.argus_c.specs.Sessions.{IsOfAction, operation_line};

use crate::handle::Handle;
use crate::reading;
use run_model::Step;
use std::alloc::Global;

/// Begins a top action at the guardian.
#[unsafe(no_mangle)]
pub extern "C" fn argus_c_top(alloc: Global, handle: &mut Handle, guardian: u32) -> u32
    requires { IsHeld handle.old }
    ensures { AnswersStep (λ s. s ≡ step.Top guardian) handle.old handle.new result }
{
    let step = Ok(Step::Top(guardian));
    handle.make(alloc, &step)
}

/// Begins a nested top action, made by the action.
#[unsafe(no_mangle)]
pub extern "C" fn argus_c_nest(alloc: Global, handle: &mut Handle, action: &[u8]) -> u32
    requires { IsHeld handle.old }
    ensures { AnswersStep (IsOfAction action.now step.NestedTop) handle.old handle.new result }
{
    let step = reading::nested_top(alloc, action);
    handle.make(alloc, &step)
}

/// Calls a handler of the guardian: begins a subaction of the action there.
#[unsafe(no_mangle)]
pub extern "C" fn argus_c_call(
    alloc: Global,
    handle: &mut Handle,
    action: &[u8],
    guardian: u32,
) -> u32
    requires { IsHeld handle.old }
    ensures { AnswersStep (IsOfAction action.now (λ a. step.Call a guardian))
        handle.old handle.new result }
{
    let step = reading::call(alloc, action, guardian);
    handle.make(alloc, &step)
}

/// Makes an operation, of which `wanted` is the name and the arguments: as the step of this line.
#[unsafe(no_mangle)]
pub extern "C" fn argus_c_op(
    alloc: Global,
    handle: &mut Handle,
    action: &[u8],
    guardian: u32,
    number: u32,
    wanted: &[u8],
) -> u32
    requires { IsHeld handle.old }
    ensures { AnswersStep (Spells (operation_line action.now guardian number wanted.now))
        handle.old handle.new result }
{
    let step = reading::operation(alloc, action, guardian, number, wanted);
    handle.make(alloc, &step)
}

/// Commits a subaction to its parent.
#[unsafe(no_mangle)]
pub extern "C" fn argus_c_commit(alloc: Global, handle: &mut Handle, action: &[u8]) -> u32
    requires { IsHeld handle.old }
    ensures { AnswersStep (IsOfAction action.now step.Commit) handle.old handle.new result }
{
    let step = reading::commit(alloc, action);
    handle.make(alloc, &step)
}

/// Aborts an action.
#[unsafe(no_mangle)]
pub extern "C" fn argus_c_abort(alloc: Global, handle: &mut Handle, action: &[u8]) -> u32
    requires { IsHeld handle.old }
    ensures { AnswersStep (IsOfAction action.now step.Abort) handle.old handle.new result }
{
    let step = reading::abort(alloc, action);
    handle.make(alloc, &step)
}

/// Closes a top action, before its votes.
#[unsafe(no_mangle)]
pub extern "C" fn argus_c_close_top(alloc: Global, handle: &mut Handle, top: &[u8]) -> u32
    requires { IsHeld handle.old }
    ensures { AnswersStep (IsOfAction top.now step.Close) handle.old handle.new result }
{
    let step = reading::close(alloc, top);
    handle.make(alloc, &step)
}

/// Has the guardian vote on a closed top action.
#[unsafe(no_mangle)]
pub extern "C" fn argus_c_prepare(
    alloc: Global,
    handle: &mut Handle,
    guardian: u32,
    top: &[u8],
) -> u32
    requires { IsHeld handle.old }
    ensures { AnswersStep (IsOfAction top.now (λ a. step.Prepare guardian a))
        handle.old handle.new result }
{
    let step = reading::prepare(alloc, guardian, top);
    handle.make(alloc, &step)
}

/// Commits a closed top action for which all participants voted yes.
#[unsafe(no_mangle)]
pub extern "C" fn argus_c_decide(alloc: Global, handle: &mut Handle, top: &[u8]) -> u32
    requires { IsHeld handle.old }
    ensures { AnswersStep (IsOfAction top.now step.Decide) handle.old handle.new result }
{
    let step = reading::decide(alloc, top);
    handle.make(alloc, &step)
}

/// Tells the guardian the outcome of an action that has ended.
#[unsafe(no_mangle)]
pub extern "C" fn argus_c_tell(
    alloc: Global,
    handle: &mut Handle,
    guardian: u32,
    action: &[u8],
) -> u32
    requires { IsHeld handle.old }
    ensures { AnswersStep (IsOfAction action.now (λ a. step.Tell guardian a))
        handle.old handle.new result }
{
    let step = reading::tell(alloc, guardian, action);
    handle.make(alloc, &step)
}

/// Crashes the guardian.
#[unsafe(no_mangle)]
pub extern "C" fn argus_c_crash(alloc: Global, handle: &mut Handle, guardian: u32) -> u32
    requires { IsHeld handle.old }
    ensures { AnswersStep (λ s. s ≡ step.Crash guardian) handle.old handle.new result }
{
    let step = Ok(Step::Crash(guardian));
    handle.make(alloc, &step)
}

/// Lets the guardian recover.
#[unsafe(no_mangle)]
pub extern "C" fn argus_c_recover(alloc: Global, handle: &mut Handle, guardian: u32) -> u32
    requires { IsHeld handle.old }
    ensures { AnswersStep (λ s. s ≡ step.Recover guardian) handle.old handle.new result }
{
    let step = Ok(Step::Recover(guardian));
    handle.make(alloc, &step)
}
