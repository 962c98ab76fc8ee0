//! Calls of all stores.
ghost use Rattle.std.specs.Prelude.{◌≡◌, ◌≢◌, map as each, true, IfErr, OnOk};
ghost use Rattle.std.specs.List.{AllByRecursion, AllZip};
ghost use Rattle.stable_store.specs.Calls.{Rests};
ghost use Rattle.stable_store.specs.Stored.{after_bump};
ghost use Rattle.store_recovery.specs.Settling.{IsSettledInPart, bases_then, contents, settled};
ghost use Rattle.store_recovery.specs.Steps.{Called, HasNoRecord, IsBumpedAtMost, KeepsItself, OpensItself, all_hold};

use crate::refused::Refused;
use crate::settling::settle;
use stable_store::Stable;
use std::alloc::Global;

/// Reads the content of each store from its device. What is read is dropped.
pub(crate) fn load_all<S: Stable>(alloc: Global, stores: &mut [S]) -> Result<(), Refused>
    ensures same { contents S.seen stores.new ≡ contents S.seen stores.old }
    ensures called { Called S.seen (KeepsItself S.seen) stores.old stores.new result }
    ensures rest { OnOk result (AllByRecursion (λ s. Rests (S.seen s)) stores.new) }
{
    for store in stores.iter_mut() {
        drop(store.load(alloc)?);
    }
    Ok(())
}

/// Settles all records.
pub(crate) fn settle_all<S: Stable>(alloc: Global, stores: &mut [S]) -> Result<(), Refused>
    requires { all_hold S.seen stores.old ≡ true }
    ensures settled { settled (contents S.seen stores.new) ≡ settled (contents S.seen stores.old) }
    ensures in_part { AllZip (IsSettledInPart (contents S.seen stores.old))
        (contents S.seen stores.old) (contents S.seen stores.new) }
    ensures none { OnOk result (AllByRecursion HasNoRecord (contents S.seen stores.new)) }
    ensures called { Called S.seen (KeepsItself S.seen) stores.old stores.new result }
    ensures ours { IfErr result (λ why. why ≢ Refused.NotOurs) }
{
    while settle(alloc, stores)? {}
    Ok(())
}

/// Counts a recovery more at each store.
pub(crate) fn count_all<S: Stable>(stores: &mut [S]) -> Result<(), Refused>
    requires { all_hold S.seen stores.old ≡ true }
    ensures counts { OnOk result
        (contents S.seen stores.new ≡ each after_bump (contents S.seen stores.old)) }
    ensures bumped { AllZip (IsBumpedAtMost S.seen) stores.old stores.new }
    ensures none { AllByRecursion HasNoRecord (contents S.seen stores.old)
        → AllByRecursion HasNoRecord (contents S.seen stores.new) }
    ensures rest { OnOk result (AllByRecursion (λ s. Rests (S.seen s)) stores.new) }
    ensures bases { bases_then (contents S.seen stores.new)
        ≡ bases_then (contents S.seen stores.old) }
    ensures called { Called S.seen (OpensItself S.seen) stores.old stores.new result }
    ensures ours { IfErr result (λ why. why ≢ Refused.NotOurs) }
{
    for store in stores.iter_mut() {
        store.bump()?;
    }
    Ok(())
}
