//! A session that goes on from stores that were kept.
ghost use Rattle.std.specs.Prelude.{◌≡◌, ◌↔◌, ◌⊎◌, IfErr, IfOk, IsErrOf, IsTrue, length, map};
ghost use Rattle.run_model.specs.Texts.{IsSetupText};
ghost use Rattle.run_model.specs.declared.setup.SetupFault.TheVariants as fault;
ghost use Rattle.stable_store.specs.Held.{held};
ghost use Rattle.stable_store.specs.Plain.{plain_view};
ghost use Rattle.store_recovery.specs.Settling.{contents};
ghost use Rattle.store_texts.specs.Texts.{AreStoresIn};
ghost use Rattle.argus_c.specs.declared.codes.Code.TheVariants as code;
ghost use Rattle.argus_c.specs.Reopening.{AreNoStores, AreNotOurs, AreOf, GoesOn, IsReopened};
ghost use Rattle.argus_c.specs.Sessions.{IsNoSetup};

use crate::changes::Changes;
use crate::codes::Code;
use crate::session::Session;
use run_model::{Setup, SetupFault};
use stable_store::{Kept, PlainStable};
use std::alloc::{AllocError, Global};
use store_recovery::belongs;
use store_texts::read_stores;
use values::ValueFault;
use world::{Refused, World};

/// The session of this setup over these stores, on the heap.
pub(crate) fn reopened(alloc: Global, setup: &[u8], stores: &[u8]) -> Result<Box<Session>, Code>
    ensures reopened { IfOk result (λ session. IsReopened setup.now stores.now session.value) }
    ensures bad { IsErrOf result code.Bad → IsNoSetup setup.now ⊎ AreNoStores stores.now }
    ensures not_ours { IsErrOf result code.NotOurs → AreNotOurs setup.now stores.now }
    ensures code { IfErr result (λ c. (c ≡ code.Bad) ⊎ (c ≡ code.Memory) ⊎ (c ≡ code.Store)
        ⊎ (c ≡ code.NotOurs)) }
{
    let setup = read_setup(alloc, setup)?;
    let kept = read_kept(alloc, stores)?;
    let Ok(changes) = Changes::all(alloc, &setup) else {
        return Err(Code::Memory);
    };
    let world = world_over(alloc, setup, kept)?;
    let session = Session {
        world,
        last: None,
        changes,
    };
    match Box::new(alloc, session) {
        Ok(session) => Ok(session),
        Err(_) => Err(Code::Memory),
    }
}

fn read_setup(alloc: Global, document: &[u8]) -> Result<Setup, Code>
    ensures found { IfOk result (λ setup. IsSetupText document.now setup) }
    ensures bad { IsErrOf result code.Bad → IsNoSetup document.now }
    ensures code { IfErr result (λ c. (c ≡ code.Bad) ⊎ (c ≡ code.Memory)) }
{
    match Setup::read(alloc, document) {
        Ok(setup) => Ok(setup),
        Err(SetupFault::Bad) => Err(Code::Bad),
        Err(SetupFault::Memory) => Err(Code::Memory),
    }
}

fn read_kept(alloc: Global, stores: &[u8]) -> Result<Vec<Kept>, Code>
    ensures found { IfOk result (λ kept. AreStoresIn stores.now (map held kept.items)) }
    ensures bad { IsErrOf result code.Bad → AreNoStores stores.now }
    ensures code { IfErr result (λ c. (c ≡ code.Bad) ⊎ (c ≡ code.Memory)) }
{
    match read_stores(alloc, stores) {
        Ok(kept) => Ok(kept),
        Err(ValueFault::Unfit) => Err(Code::Bad),
        Err(ValueFault::Memory) => Err(Code::Memory),
    }
}

/// The world of this setup over stores of these contents.
fn world_over(alloc: Global, setup: Setup, kept: Vec<Kept>) -> Result<World<PlainStable>, Code>
    ensures over { IfOk result (λ world. GoesOn setup (map held kept.items) world) }
    ensures others { IsErrOf result code.NotOurs → AreOf setup (map held kept.items) → ⊥ }
    ensures code { IfErr result (λ c. (c ≡ code.Memory) ⊎ (c ≡ code.Store) ⊎ (c ≡ code.NotOurs)) }
{
    if !are_of(&setup, kept.as_slice()) {
        return Err(Code::NotOurs);
    }
    let Ok(stores) = stores_of(alloc, kept) else {
        return Err(Code::Memory);
    };
    match World::reopen(alloc, setup, stores) {
        Ok(world) => Ok(world),
        Err((Refused::Memory, _)) => Err(Code::Memory),
        Err((Refused::NotOurs | Refused::Stable, _)) => Err(Code::Store),
    }
}

/// Whether there is a content for each guardian of the setup, which may be that of its store.
fn are_of(setup: &Setup, left: &[Kept]) -> bool
    ensures { IsTrue result ↔ AreOf setup.now (map held left.now) }
{
    if left.len() != setup.guardians() {
        return false;
    }
    let guardians = setup.guardians() as u32;
    for guardian in 1..=guardians {
        if !belongs(setup, guardian, &left[guardian as usize - 1]) {
            return false;
        }
    }
    true
}

/// Stores of these contents.
fn stores_of(alloc: Global, left: Vec<Kept>) -> Result<Vec<PlainStable>, AllocError>
    ensures { IfOk result (λ stores. contents plain_view stores.items ≡ map held left.items) }
{
    let mut stores = Vec::with_capacity(alloc, left.len())?;
    for kept in left {
        stores.push(PlainStable::from(kept))?;
    }
    Ok(stores)
}
