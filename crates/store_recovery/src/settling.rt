//! The records of a system's stores are settled one by one.
ghost use Rattle.std.specs.Prelude.{◌≡◌, ◌↔◌, false, true, IsErrOf, MatchOption, if◌then◌else◌};
ghost use Rattle.std.specs.List.{AllByRecursion, AllZip};
ghost use Rattle.std.specs.FinSet as set;
ghost use Rattle.stable_store.specs.Calls.{Makes};
ghost use Rattle.stable_store.specs.Held.{held};
ghost use Rattle.stable_store.specs.Stored.{after_discard, after_install};
ghost use Rattle.stable_store.specs.declared.fault.StoreFault.TheVariants.{NotOurs};
ghost use Rattle.store_recovery.specs.Settling.{bases_then, contents, is_decided, settled, settled_by};
ghost use Rattle.store_recovery.specs.Steps.{HasFirst, HasNoRecord, KeepsBases, KeepsItself, OneHasCounted, SettlesFirst, SettlesOne, all_hold};
ghost use Rattle.store_recovery.specs.Finding.{IsFirstLeft, IsLeast};

use crate::refused::Refused;
use stable_store::{Kept, Stable, StoreFault};
use std::alloc::Global;

/// Settles one record, if one is left: at the first store with one, that of the least top action. It is installed
/// where the store of its home has the top action among its decided ones, and else discarded. `Ok(false)` comes where
/// no store has a record, and then all stores are as they were.
///
/// After an error each store contains what it did: `Memory` comes if memory ran out, and `Stable` of a store that
/// counted a failure. `NotOurs` comes exactly where a store holds no content, and then no store is called.
pub fn settle<S: Stable>(alloc: Global, stores: &mut [S]) -> Result<bool, Refused>
    ensures settles { SettlesOne S.seen S.may_fail stores.old stores.new result }
    ensures settled { settled (contents S.seen stores.new) ≡ settled (contents S.seen stores.old) }
    ensures bases { bases_then (contents S.seen stores.new)
        ≡ bases_then (contents S.seen stores.old) }
    ensures kept { AllZip (KeepsItself S.seen) stores.old stores.new }
    ensures stops { KeepsBases S.seen stores.old stores.new }
    ensures counted { IsErrOf result Refused.Stable → OneHasCounted S.seen stores.old stores.new }
    ensures ours { IsErrOf result Refused.NotOurs ↔ (all_hold S.seen stores.old ≡ false) }
{
    if !all_hold(stores) {
        return Err(Refused::NotOurs);
    }
    let Some(left) = first_left(stores) else {
        return Ok(false);
    };
    settle_at(alloc, stores, left)?;
    Ok(true)
}

/// What a store that holds a content keeps.
pub(crate) fn kept_in<S: Stable>(store: &S) -> &Kept
    requires { (S.seen store.now).holds_content ≡ true }
    ensures { (S.seen store.now).content ≡ held result.now }
{
    store.kept().unwrap()
}

/// A record that is left: the place of its store, its top action and its home.
#[derive(Clone, Copy)]
struct Left {
    place: usize,
    top: u32,
    home: u32,
}

/// Whether each store holds a content.
pub(crate) fn all_hold<S: Stable>(stores: &[S]) -> bool
    ensures { result ≡ all_hold S.seen stores.now }
{
    stores.iter().all(|store| store.kept().is_some())
}

// The record of the least top action at the first store with one.
fn first_left<S: Stable>(stores: &[S]) -> Option<Left>
    requires { all_hold S.seen stores.now ≡ true }
    ensures { MatchOption result (AllByRecursion HasNoRecord (contents S.seen stores.now))
        (λ left. IsFirstLeft S.seen stores.now left.place left.top left.home) }
{
    for (place, store) in stores.iter().enumerate() {
        if let Some((top, home)) = least_record(store) {
            return Some(Left { place, top, home });
        }
    }
    None
}

// The least top action with a record, and the record's home.
fn least_record<S: Stable>(store: &S) -> Option<(u32, u32)>
    requires { (S.seen store.now).holds_content ≡ true }
    ensures { MatchOption result (HasNoRecord (S.seen store.now).content)
        (λ least. IsLeast (S.seen store.now).content least.0 least.1) }
{
    let (&top, record) = kept_in(store).prepared.iter().next()?;
    Some((top, record.home))
}

// Whether the store of the home has the top action among its decided ones.
fn is_decided<S: Stable>(stores: &[S], home: u32, top: u32) -> bool
    requires { all_hold S.seen stores.now ≡ true }
    ensures { result ≡ is_decided (contents S.seen stores.now) home top }
{
    if home == 0 {
        return false;
    }
    match stores.get(home as usize - 1) {
        Some(store) => has_decided(store, top),
        None => false,
    }
}

// Whether the store has the top action among its decided ones.
fn has_decided<S: Stable>(store: &S, top: u32) -> bool
    requires { (S.seen store.now).holds_content ≡ true }
    ensures { result ≡ set.contains (S.seen store.now).content.decided top }
{
    kept_in(store).decided.contains(&top)
}

// Settles this record as its home decided.
fn settle_at<S: Stable>(alloc: Global, stores: &mut [S], left: Left) -> Result<(), StoreFault>
    requires hold { all_hold S.seen stores.old ≡ true }
    requires first { IsFirstLeft S.seen stores.old left.place left.top left.home }
    ensures settles { SettlesFirst S.seen S.may_fail stores.old stores.new result }
    ensures ours { IsErrOf result NotOurs → ⊥ }
{
    let decided = is_decided(stores, left.home, left.top);
    settle_one(alloc, &mut stores[left.place], left.top, decided)
}

// Installs the top action's record, or discards it.
fn settle_one<S: Stable>(
    alloc: Global,
    store: &mut S,
    top: u32,
    decided: bool,
) -> Result<(), StoreFault>
    ensures makes { Makes (S.seen store.old) (S.seen store.new) (S.may_fail store.old store.new)
        (if decided then after_install top (S.seen store.old).content
        else after_discard top (S.seen store.old).content)
        result }
    ensures ours { IsErrOf result NotOurs → (S.seen store.old).holds_content ≡ false }
{
    if decided {
        store.install(alloc, top)
    } else {
        store.discard(top)
    }
}
