//! An object seen through overlays that lie on it, the lowest first.
ghost use Rattle.std.specs.Prelude.{◌≡◌, IsTrue, IfOk};
ghost use Rattle.atomic_types.specs.Operations.{is_read};
ghost use Rattle.overlays.specs.Overlays.{laid_all, AllFit};

use crate::layered::Layered;
use crate::seen::Seen;
use atomic_types::{Op, Reply};
use std::alloc::AllocError;

/// The reply to an operation that reads. No content is put together for it.
pub fn read_through<T: Layered>(
    base: &T,
    overlays: &[T::Overlay],
    op: &Op,
) -> Result<Reply, AllocError>
    requires fits { AllFit T.laid T.fits base.now overlays.now }
    requires known { IsTrue (T.knows (laid_all T.laid base.now overlays.now) op.now) }
    requires reads { IsTrue (is_read op.now) }
    ensures { IfOk result (λ r. r ≡ T.reply (laid_all T.laid base.now overlays.now) op.now) }
{
    let mut left = overlays;
    while let [below @ .., top] = left {
        match T::peek(top, op)? {
            Seen::Reply(reply) => return Ok(reply),
            Seen::Below => left = below,
        }
    }
    base.read(op)
}

/// The content, put together.
pub fn content_of<T: Layered>(base: &T, overlays: &[T::Overlay]) -> Result<T, AllocError>
    requires { AllFit T.laid T.fits base.now overlays.now }
    ensures { IfOk result (λ content. content ≡ laid_all T.laid base.now overlays.now) }
{
    let mut content = base.copy()?;
    for overlay in overlays {
        content.lay(overlay)?;
    }
    Ok(content)
}
