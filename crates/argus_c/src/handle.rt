//! A world as C holds it: a mark that says whether there is one, the code of the last call, and the address of the
//! boxed session.
ghost use Rattle.std.specs.Prelude.{◌≡◌, ◌≢◌, ◌==◌, None, Some, MatchOption};
ghost use Rattle.argus_c.specs.Codes.{code_number};
ghost use Rattle.argus_c.specs.Calls.{AnswersRead, IsHeld, open_mark, session_of};

mod parts;
mod seat;

use crate::codes::Code;
use crate::reading::Unread;
use crate::session::Session;
use run_model::Step;
use seat::Seat;
use std::alloc::Global;
use std::{mem, ptr};

/// The mark of a handle that holds a world: "argu" as bytes.
const OPEN_MARK: u32 = 0x75_67_72_61;

/// All bytes zero: closed.
#[repr(C)]
#[derive(Drop)]
pub struct Handle {
    pub(crate) mark: u32,
    pub(crate) error: u32,
    pub(crate) seat: Seat,
}

impl Handle {
    pub(crate) fn is_open(&self) -> bool
        ensures { result ≡ (self.now.mark == open_mark) }
    {
        self.mark == OPEN_MARK
    }

    /// Keeps the code, and gives its number.
    pub(crate) fn told(&mut self, code: Code) -> u32
        ensures number { result ≡ code_number code }
        ensures error { self.new.error ≡ code_number code }
        ensures same { session_of self.new ≡ session_of self.old }
        ensures held { IsHeld self.old → IsHeld self.new }
    {
        self.error = code.number();
        self.error
    }

    /// Takes the session out, and leaves the handle closed.
    pub(crate) fn take(&mut self, alloc: Global) -> Option<Box<Session>>
        requires { IsHeld self.old }
        ensures some { MatchOption result (session_of self.old ≡ None)
            (λ session. session_of self.old ≡ Some session.value) }
        ensures closed { session_of self.new ≡ None }
        ensures held { IsHeld self.new }
    {
        if !self.is_open() {
            return None;
        }
        self.mark = 0;
        let seat = mem::replace(&mut self.seat, Seat::empty(alloc));
        Some(seat.into_box())
    }

    /// Puts a session in.
    pub(crate) fn put(&mut self, session: Box<Session>)
        ensures held { session_of self.new ≡ Some session.value }
        ensures marked { IsHeld self.new }
    {
        self.seat = Seat::of(session);
        self.mark = OPEN_MARK;
    }

    /// Makes the step that was read.
    pub(crate) fn make(&mut self, alloc: Global, read: &Result<Step, Unread>) -> u32
        requires { IsHeld self.old }
        ensures { AnswersRead read.now self.old self.new result }
    {
        let Some(mut session) = self.take(alloc) else {
            return self.told(Code::Closed);
        };
        let code = session.make_read(read);
        self.put(session);
        self.told(code)
    }
}
