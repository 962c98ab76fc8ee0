//! The stores of a system are opened again.
ghost use Rattle.std.specs.Prelude.{◌≡◌, length, IfErr, IfOk, OnOk, vec_len, true};
ghost use Rattle.std.specs.List.{AllZip};
ghost use Rattle.run_model.specs.Openings.{opening_in};
ghost use Rattle.store_recovery.specs.Settling.{contents};
ghost use Rattle.store_recovery.specs.Steps.{all_hold};
ghost use Rattle.store_recovery.specs.Opened.{AreOpened, AreRefused, IsOpeningOf, first_number};
ghost use Rattle.store_recovery.specs.Saying.{Says, lists_of};

use crate::calls::{count_all, load_all, settle_all};
use crate::checking::all_belong;
use crate::refused::Refused;
use crate::settling::{all_hold, kept_in};
use atomic_types::Part;
use run_model::{Held, Opening, Setup};
use stable_store::{Kept, Stable};
use std::alloc::{AllocError, Global};
use std::collections::{BTreeMap, BTreeSet};

/// Opens the stores of the setup's guardians again, the first guardian's first. Each is read from its device, and
/// what it contains is checked; then all records are settled, and a recovery is counted at each store. The opening is
/// what the stores hold then, and its first top action has a number above those of all that were ever prepared.
///
/// After an error the setup and the stores come back. `NotOurs` comes before anything is changed: where a store holds
/// no content, where its device returned none, or where what it contains does not fit the objects of its guardian or
/// the guardians of the setup. `Stable` comes of a store that counted a failure, `Memory` of memory that ran out.
/// What was settled by then stays so, and a recovery may have been counted at some stores once no record was left.
/// What is installed once all records are settled is what it was. Each store holds what it held, with some of its
/// records settled. So the stores can be opened again.
pub fn open_stores<S: Stable>(
    alloc: Global,
    setup: Setup,
    mut stores: Vec<S>,
) -> Result<(Opening, Vec<S>), (Refused, Setup, Vec<S>)>
    requires { vec_len stores ≡ length setup }
    ensures opened { IfOk result (λ opened. AreOpened S.seen setup stores.items opened.1.items) }
    ensures opening { IfOk result
        (λ opened. IsOpeningOf setup (contents S.seen opened.1.items) (opening_in opened.0)) }
    ensures refused { IfErr result
        (λ refused. AreRefused S.seen setup stores.items refused.2.items refused.0) }
    ensures setup { IfErr result (λ refused. refused.1 ≡ setup) }
{
    match open_all(alloc, &setup, stores.as_mut_slice()) {
        Ok(held) => {
            let first_top = first_number(stores.as_slice());
            Ok((Opening::new(setup, held, first_top), stores))
        }
        Err(why) => Err((why, setup, stores)),
    }
}

// Checks, settles and counts, and says what the stores hold then.
fn open_all<S: Stable>(alloc: Global, setup: &Setup, stores: &mut [S]) -> Result<Vec<Held>, Refused>
    requires { length stores.old ≡ length setup.now }
    ensures opened { OnOk result (AreOpened S.seen setup.now stores.old stores.new) }
    ensures held { IfOk result (λ held. AllZip Says (contents S.seen stores.new) held.items) }
    ensures refused { IfErr result (λ why. AreRefused S.seen setup.now stores.old stores.new why) }
{
    make_ready(alloc, setup, stores)?;
    Ok(held_by_all(alloc, stores)?)
}

// Checks the stores, settles them, and counts a recovery at each.
fn make_ready<S: Stable>(alloc: Global, setup: &Setup, stores: &mut [S]) -> Result<(), Refused>
    requires { length stores.old ≡ length setup.now }
    ensures opened { OnOk result (AreOpened S.seen setup.now stores.old stores.new) }
    ensures refused { IfErr result (λ why. AreRefused S.seen setup.now stores.old stores.new why) }
{
    if !all_hold(stores) {
        return Err(Refused::NotOurs);
    }
    load_all(alloc, stores)?;
    if !all_belong(setup, stores) {
        return Err(Refused::NotOurs);
    }
    settle_all(alloc, stores)?;
    count_all(stores)
}

// The number that the first top action gets.
fn first_number<S: Stable>(stores: &[S]) -> u64
    requires { all_hold S.seen stores.now ≡ true }
    ensures { result ≡ first_number (contents S.seen stores.now) }
{
    let mut first = 1;
    for store in stores {
        first = first.max(kept_in(store).next_top);
    }
    first
}

// What each store holds.
fn held_by_all<S: Stable>(alloc: Global, stores: &[S]) -> Result<Vec<Held>, AllocError>
    requires { all_hold S.seen stores.now ≡ true }
    ensures { IfOk result (λ held. AllZip Says (contents S.seen stores.now) held.items) }
{
    let mut held = Vec::with_capacity(alloc, stores.len())?;
    for store in stores {
        held.push(held_by(alloc, kept_in(store))?)?;
    }
    Ok(held)
}

/// What a store with this content holds beside its records, in lists.
pub fn held_by(alloc: Global, kept: &Kept) -> Result<Held, AllocError>
    ensures { IfOk result (λ held. held ≡ lists_of kept.now) }
{
    let base = listed_parts(alloc, &kept.base)?;
    let decided = listed_numbers(alloc, &kept.decided)?;
    Ok(Held::new(base, decided, kept.count, kept.next_top))
}

fn listed_parts(alloc: Global, parts: &BTreeMap<u32, Part>) -> Result<Vec<(u32, Part)>, AllocError>
    ensures { IfOk result (λ listed. listed.items ≡ parts.now.entries) }
{
    let mut listed = Vec::with_capacity(alloc, parts.len())?;
    for (&object, part) in parts {
        listed.push((object, part.copy()?))?;
    }
    Ok(listed)
}

fn listed_numbers(alloc: Global, numbers: &BTreeSet<u32>) -> Result<Vec<u32>, AllocError>
    ensures { IfOk result (λ listed. listed.items ≡ numbers.now.keys) }
{
    let mut listed = Vec::with_capacity(alloc, numbers.len())?;
    for &number in numbers {
        listed.push(number)?;
    }
    Ok(listed)
}
