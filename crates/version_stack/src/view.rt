ghost use Rattle.std.specs.Prelude.{◌≡◌, IsTrue, IfOk};
ghost use Rattle.atomic_types.specs.Operations.{is_read, is_write};
ghost use Rattle.overlays.specs.Laws.{is_always_done};

use atomic_types::{Class, Op, Reply};
use overlays::{Layered, content_of, read_through};
use std::alloc::{AllocError, Global};
use std::marker::Model;

/// A content that is seen through overlays.
#[derive(Drop)]
pub struct View<'a, T: Layered> {
    content: &'a T,
    overlays: &'a [T::Overlay],
    alloc: Global,
}

impl<'a, T: Layered> Model for View<'a, T> {
    ghost use Rattle.overlays.specs.Overlays.{laid_all, AllFit};

    ghost Value = { T };

    ghost view = { λ a. laid_all T.laid a.content.now a.overlays.now };

    ghost invariant = { λ a. AllFit T.laid T.fits a.content.now a.overlays.now };
}

impl<'a, T: Layered> View<'a, T> {
    ghost use Rattle.overlays.specs.Overlays.{laid_all, AllFit};

    /// The content under these overlays, the lowest first.
    pub(crate) fn new(content: &'a T, overlays: &'a [T::Overlay], alloc: Global) -> Self
        requires { AllFit T.laid T.fits content.now overlays.now }
        ensures { result ≡ laid_all T.laid content.entry.now overlays.entry.now }
    {
        View {
            content,
            overlays,
            alloc,
        }
    }

    /// The reply to an operation that reads. No content is put together for it.
    pub fn read(&self, op: &Op) -> Result<Reply, AllocError>
        requires known { IsTrue (T.knows self.now op.now) }
        requires reads { IsTrue (is_read op.now) }
        ensures { IfOk result (λ r. r ≡ T.reply self.now op.now) }
    {
        read_through(self.content, self.overlays, op)
    }

    /// The reply to an operation of whatever class, with nothing changed. No content is put together for it. Fails
    /// only if memory runs out.
    pub fn reply(&self, op: &Op) -> Result<Reply, AllocError>
        requires { IsTrue (T.knows self.now op.now) }
        ensures { IfOk result (λ r. r ≡ T.reply self.now op.now) }
    {
        // Mostly the reply to a write shows nothing of the content.
        if is_always_done(op) {
            return Ok(Reply::Done);
        }
        match op.class() {
            Class::Read => self.read(op),
            Class::Write => self.write_aside(op),
            Class::Add => unreachable!(),
        }
    }

    // The reply to an operation that writes. It is noted in an overlay that is then dropped.
    fn write_aside(&self, op: &Op) -> Result<Reply, AllocError>
        requires known { IsTrue (T.knows self.now op.now) }
        requires writes { IsTrue (is_write op.now) }
        ensures { IfOk result (λ r. r ≡ T.reply self.now op.now) }
    {
        let mut overlay = T::nothing(self.alloc);
        T::note(self.content, self.overlays, &mut overlay, op)
    }

    /// The content, put together.
    pub fn content(&self) -> Result<T, AllocError>
        ensures { IfOk result (λ content. content ≡ self.now) }
    {
        content_of(self.content, self.overlays)
    }
}

// Whether the operation is answered done, whatever the content is.
fn is_always_done(op: &Op) -> bool
    ensures { result ≡ is_always_done op.now }
{
    matches!(op, Op::Set(..) | Op::Change(..) | Op::Put(_) | Op::Add(_))
}
