//! The stores of a system that begins.
ghost use Rattle.std.specs.Prelude.{◌≡◌, ◌≢◌, ◌↔◌, false, true, IfErr, IsErrOf, IsTrue, OnOk};
ghost use Rattle.std.specs.List.{AllZip};
ghost use Rattle.store_recovery.specs.Beginning.{AreEmpty, AreNew, HasNothing};
ghost use Rattle.store_recovery.specs.Settling.{contents};
ghost use Rattle.store_recovery.specs.Steps.{GoesOn, KeepsItself, NoneHasCounted, OneHasCounted, all_hold};

use crate::calls::load_all;
use crate::refused::Refused;
use crate::settling::{all_hold, kept_in};
use stable_store::{Kept, Stable};
use std::alloc::Global;

/// Sees that the stores are new: each is read from its device, and nothing was ever kept there, so it has no base, no
/// record, nothing decided, no recovery and no top action.
///
/// After an error each contains what it did. `NotOurs` comes where a store holds no content or not that of a new one,
/// and where its device returned none; `Stable` of a store that counted a failure, `Memory` of memory that ran out.
pub fn begin_stores<S: Stable>(alloc: Global, stores: &mut [S]) -> Result<(), Refused>
    ensures new { OnOk result (AreNew S.seen stores.new) }
    ensures same { contents S.seen stores.new ≡ contents S.seen stores.old }
    ensures kept { AllZip (KeepsItself S.seen) stores.old stores.new }
    ensures goes { OnOk result (AllZip (GoesOn S.seen) stores.old stores.new) }
    ensures empty { all_hold S.seen stores.old ≡ false
        → IsErrOf result Refused.NotOurs × (stores.new ≡ stores.old) }
    ensures cause { all_hold S.seen stores.old ≡ true → AreEmpty S.seen stores.old
        → IfErr result (λ why. why ≢ Refused.Memory → OneHasCounted S.seen stores.old stores.new) }
    ensures counted { IsErrOf result Refused.Stable → OneHasCounted S.seen stores.old stores.new }
    ensures memory { IsErrOf result Refused.Memory → NoneHasCounted S.seen stores.old stores.new }
{
    if !all_hold(stores) {
        return Err(Refused::NotOurs);
    }
    load_all(alloc, stores)?;
    if !are_empty(stores) {
        return Err(Refused::NotOurs);
    }
    Ok(())
}

// Whether each contains what a new store does.
fn are_empty<S: Stable>(stores: &[S]) -> bool
    requires { all_hold S.seen stores.now ≡ true }
    ensures { IsTrue result ↔ AreEmpty S.seen stores.now }
{
    for store in stores {
        if !is_empty(kept_in(store)) {
            return false;
        }
    }
    true
}

// Whether it is the content of a new store.
fn is_empty(kept: &Kept) -> bool
    ensures { IsTrue result ↔ HasNothing kept.now }
{
    kept.base.is_empty()
        && kept.prepared.is_empty()
        && kept.decided.is_empty()
        && kept.count == 0
        && kept.next_top == 1
}
