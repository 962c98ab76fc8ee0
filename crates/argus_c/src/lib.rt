//! The world of guardians for C and what calls C: a world is opened over a setup, steps are made by their lines or by
//! calls of their own, and the last answer and the bases of objects are read.
//!
//! The stores are in memory. The caller is told which have changed, and keeps their texts in files of its own, from
//! which a world is opened again.
//!
//! A handle lies in the caller's memory. It is closed or holds a world, and keeps the code of its last call.
#![tactic(auto)]

ghost use Rattle.std.specs.Prelude.{◌≡◌, ◌≢◌, ◌⊎◌, IsSome, IsSomeAnd, None};
ghost use Rattle.run_model.specs.Texts.{Spells};
ghost use Rattle.argus_c.specs.Codes.{bad, closed, done, memory, nothing, open_already, small, code_number, code_text};
ghost use Rattle.argus_c.specs.Sessions.{IsAnswerText, IsBaseText, IsNoSetup, IsOpened};
ghost use Rattle.argus_c.specs.declared.codes.Code.{Code};
ghost use Rattle.argus_c.specs.Writing.{IsTooSmall, IsWritten};
ghost use Rattle.argus_c.specs.Calls.{AnswersStep, IsHeld, Place, TellsText, session_of};

mod called;
mod calls;
mod changes;
mod codes;
mod handle;
mod homes;
mod keeping;
mod operations;
mod reading;
mod reopening;
mod session;
mod writing;

use codes::Code;
use handle::Handle;
use reading::step_of_line;
use session::Session;
use std::alloc::Global;
use writing::{write_found, written};

/// Opens a world in memory over the setup that this document is.
#[unsafe(no_mangle)]
pub extern "C" fn argus_c_open(alloc: Global, handle: &mut Handle, setup: &[u8]) -> u32
    requires { IsHeld handle.old }
    ensures opened { result ≡ done → IsSomeAnd (session_of handle.new) (IsOpened setup.now) }
    ensures was_closed { result ≡ done → session_of handle.old ≡ None }
    ensures bad { result ≡ bad → IsNoSetup setup.now }
    ensures already { result ≡ open_already → IsSome (session_of handle.old) }
    ensures not_again { IsSome (session_of handle.old) → result ≡ open_already }
    ensures same { result ≢ done → session_of handle.new ≡ session_of handle.old }
    ensures code { (result ≡ done) ⊎ (result ≡ bad) ⊎ (result ≡ memory) ⊎ (result ≡ open_already) }
    ensures error { handle.new.error ≡ result }
    ensures held { IsHeld handle.new }
{
    if handle.is_open() {
        return handle.told(Code::Open);
    }
    match Session::boxed(alloc, setup) {
        Ok(session) => {
            handle.put(session);
            handle.told(Code::Done)
        }
        Err(code) => handle.told(code),
    }
}

/// Makes the step that the line spells.
#[unsafe(no_mangle)]
pub extern "C" fn argus_c_step(alloc: Global, handle: &mut Handle, line: &[u8]) -> u32
    requires { IsHeld handle.old }
    ensures { AnswersStep (Spells line.now) handle.old handle.new result }
{
    let step = step_of_line(alloc, line);
    handle.make(alloc, &step)
}

/// Writes the line of the last step's answer to the start of the place, and its length to `len`.
#[unsafe(no_mangle)]
pub extern "C" fn argus_c_answer(
    alloc: Global,
    handle: &mut Handle,
    place: &mut [u8],
    len: &mut usize,
) -> u32
    requires { IsHeld handle.old }
    ensures { TellsText IsAnswerText handle.old handle.new
        (record { bytes = place.old; len = len.old })
        (record { bytes = place.new; len = len.new }) result }
{
    let Some(session) = handle.take(alloc) else {
        return handle.told(Code::Closed);
    };
    let text = session.answer(alloc);
    handle.put(session);
    let code = write_found(text, place, len);
    handle.told(code)
}

/// Writes the base of an object, in its one spelling, to the start of the place, and its length to `len`.
#[unsafe(no_mangle)]
pub extern "C" fn argus_c_base(
    alloc: Global,
    handle: &mut Handle,
    guardian: u32,
    number: u32,
    place: &mut [u8],
    len: &mut usize,
) -> u32
    requires { IsHeld handle.old }
    ensures { TellsText (IsBaseText guardian number) handle.old handle.new
        (record { bytes = place.old; len = len.old })
        (record { bytes = place.new; len = len.new }) result }
{
    let Some(session) = handle.take(alloc) else {
        return handle.told(Code::Closed);
    };
    let text = session.base(alloc, guardian, number);
    handle.put(session);
    let code = write_found(text, place, len);
    handle.told(code)
}

/// Writes the text of a code to the start of the place, and its length to `len`.
#[unsafe(no_mangle)]
pub extern "C" fn argus_c_text(code: u32, place: &mut [u8], len: &mut usize) -> u32
    ensures done { result ≡ done → (c : Code) × (code_number c ≡ code)
        × IsWritten (code_text c) place.old place.new len.new }
    ensures small { result ≡ small → (c : Code) × (code_number c ≡ code)
        × IsTooSmall (code_text c) place.old len.new }
    ensures none { result ≡ nothing → (c : Code) → code_number c ≢ code }
    ensures unwritten { result ≢ done → place.new ≡ place.old }
    ensures untold { result ≡ nothing → len.new ≡ len.old }
    ensures code { (result ≡ done) ⊎ (result ≡ small) ⊎ (result ≡ nothing) }
{
    match Code::of(code) {
        Some(code) => written(code.text().as_bytes(), place, len).number(),
        None => Code::Nothing.number(),
    }
}

/// Ends the world.
#[unsafe(no_mangle)]
pub extern "C" fn argus_c_close(alloc: Global, handle: &mut Handle) -> u32
    requires { IsHeld handle.old }
    ensures done { IsSome (session_of handle.old) → result ≡ done }
    ensures closed { session_of handle.old ≡ None → result ≡ closed }
    ensures after { session_of handle.new ≡ None }
    ensures error { handle.new.error ≡ result }
    ensures held { IsHeld handle.new }
{
    match handle.take(alloc) {
        Some(_session) => handle.told(Code::Done),
        None => handle.told(Code::Closed),
    }
}
