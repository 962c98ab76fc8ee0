//! The address of a boxed session, or of none.
ghost use Rattle.std.specs.Prelude.{◌≡◌, ◌≢◌, Option, None, Some, IsSome};
ghost use Rattle.argus_c.specs.declared.session.Session.{Session};
ghost use Rattle.argus_c.specs.Owning.{owns, coded};

use super::parts::Parts;
use crate::session::Session;
use std::alloc::Global;
use std::marker::Model;
use std::ptr;

#[repr(C)]
#[derive(Drop)]
pub struct Seat {
    ptr: *mut u8,
    alloc: Global,
    pub ghost value: { Option Session } by { coded },
}

impl Model for Seat {
    ghost also_owns = { λ h. owns h.alloc h.ptr h.value };
}

impl Seat {
    /// The address of none.
    pub(crate) fn empty(alloc: Global) -> Seat
        ensures { result.value ≡ None }
    {
        Seat {
            ptr: ptr::null_mut(),
            alloc,
        }
    }

    pub(crate) fn of(session: Box<Session>) -> Seat
        ensures { result.value ≡ Some session.value }
    {
        Seat::of_parts(Parts::of(session))
    }

    pub(crate) fn into_box(self) -> Box<Session>
        requires { IsSome self.value }
        ensures { self.value ≡ Some result.value }
    {
        self.into_parts().into_box()
    }

    fn of_parts(parts: Parts<Session, Global>) -> Seat
        ensures { result.value ≡ Some parts.value }
    {
        let Parts { ptr, alloc } = parts;
        Seat {
            ptr: ptr as *mut u8,
            alloc,
        }
    }

    fn into_parts(self) -> Parts<Session, Global>
        requires { IsSome self.value }
        ensures { self.value ≡ Some result.value }
    {
        let Seat { ptr, alloc } = self;
        Parts {
            ptr: ptr as *mut Session,
            alloc,
        }
    }
}
