//! Stores that the caller keeps, and a world that goes on from them.
ghost use Rattle.std.specs.Prelude.{◌≡◌, ◌≢◌, ◌⊎◌, IsSome, IsSomeAnd, None};
ghost use Rattle.argus_c.specs.Codes.{bad, closed, done, memory, not_ours, nothing, open_already, store};
ghost use Rattle.argus_c.specs.Calls.{IsHeld, KeepsStore, Place, TellsText, session_of};
ghost use Rattle.argus_c.specs.Keeping.{IsLastMarked, IsStoreTextOf, NoneChanged};
ghost use Rattle.argus_c.specs.Reopening.{AreNoStores, AreNotOurs, IsReopened};
ghost use Rattle.argus_c.specs.Sessions.{IsNoSetup};

use crate::codes::Code;
use crate::handle::Handle;
use crate::reopening::reopened;
use crate::writing::write_found;
use std::alloc::Global;

/// Opens a world that goes on from stores: their texts, in the order of their guardians, as a JSON array. What was
/// prepared is settled. All stores are told as changed.
#[unsafe(no_mangle)]
pub extern "C" fn argus_c_reopen(
    alloc: Global,
    handle: &mut Handle,
    setup: &[u8],
    stores: &[u8],
) -> u32
    requires { IsHeld handle.old }
    ensures opened { result ≡ done
        → IsSomeAnd (session_of handle.new) (IsReopened setup.now stores.now) }
    ensures was_closed { result ≡ done → session_of handle.old ≡ None }
    ensures bad { result ≡ bad → IsNoSetup setup.now ⊎ AreNoStores stores.now }
    ensures not_ours { result ≡ not_ours → AreNotOurs setup.now stores.now }
    ensures already { result ≡ open_already → IsSome (session_of handle.old) }
    ensures not_again { IsSome (session_of handle.old) → result ≡ open_already }
    ensures same { result ≢ done → session_of handle.new ≡ session_of handle.old }
    ensures code { (result ≡ done) ⊎ (result ≡ bad) ⊎ (result ≡ memory) ⊎ (result ≡ open_already)
        ⊎ (result ≡ store) ⊎ (result ≡ not_ours) }
    ensures error { handle.new.error ≡ result }
    ensures held { IsHeld handle.new }
{
    if handle.is_open() {
        return handle.told(Code::Open);
    }
    match reopened(alloc, setup, stores) {
        Ok(session) => {
            handle.put(session);
            handle.told(Code::Done)
        }
        Err(code) => handle.told(code),
    }
}

/// Tells the last guardian whose store may hold something else than what the caller keeps.
#[unsafe(no_mangle)]
pub extern "C" fn argus_c_changed(alloc: Global, handle: &mut Handle, guardian: &mut u32) -> u32
    requires { IsHeld handle.old }
    ensures last { result ≡ done → IsSomeAnd (session_of handle.old)
        (λ session. IsLastMarked session.changes guardian.new) }
    ensures none { result ≡ nothing → IsSomeAnd (session_of handle.old) NoneChanged }
    ensures was_closed { result ≡ closed → session_of handle.old ≡ None }
    ensures closed_then { session_of handle.old ≡ None → result ≡ closed }
    ensures untold { result ≢ done → guardian.new ≡ guardian.old }
    ensures same { session_of handle.new ≡ session_of handle.old }
    ensures code { (result ≡ done) ⊎ (result ≡ nothing) ⊎ (result ≡ closed) }
    ensures error { handle.new.error ≡ result }
    ensures held { IsHeld handle.new }
{
    let Some(session) = handle.take(alloc) else {
        return handle.told(Code::Closed);
    };
    let last = session.changes.last();
    handle.put(session);
    let Some(last) = last else {
        return handle.told(Code::Nothing);
    };
    *guardian = last;
    handle.told(Code::Done)
}

/// Writes the text of what the guardian's store contains to the start of the place, and its length to `len`.
#[unsafe(no_mangle)]
pub extern "C" fn argus_c_store(
    alloc: Global,
    handle: &mut Handle,
    guardian: u32,
    place: &mut [u8],
    len: &mut usize,
) -> u32
    requires { IsHeld handle.old }
    ensures { TellsText (IsStoreTextOf guardian) handle.old handle.new
        (record { bytes = place.old; len = len.old })
        (record { bytes = place.new; len = len.new }) result }
{
    let Some(session) = handle.take(alloc) else {
        return handle.told(Code::Closed);
    };
    let text = session.store(alloc, guardian);
    handle.put(session);
    let code = write_found(text, place, len);
    handle.told(code)
}

/// Hears that the caller keeps the text of the guardian's store, as it is now. The guardian is not told as changed
/// until a step calls its store.
#[unsafe(no_mangle)]
pub extern "C" fn argus_c_kept(alloc: Global, handle: &mut Handle, guardian: u32) -> u32
    requires { IsHeld handle.old }
    ensures { KeepsStore guardian handle.old handle.new result }
{
    let Some(mut session) = handle.take(alloc) else {
        return handle.told(Code::Closed);
    };
    session.changes.keep(guardian);
    handle.put(session);
    handle.told(Code::Done)
}
