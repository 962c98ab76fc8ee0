//! Worlds over stores in memory that may fail at one call.
use crate::system::{Failing, System, Unopened};
use rows::RowFault;
use run_model::{Answer, Content, ObjectId, Setup, Step};
use stable_store::{FailOnce, Kept, PlainStable, Stable};
use std::alloc::{AllocError, Global};
use world::{Fault, Refused, World};

/// A store in memory that may fail at one call.
type Store = FailOnce<PlainStable>;

/// A world over such stores.
pub(crate) type StoredWorld = World<Store>;

impl System for World<Store> {
    fn open(
        alloc: Global,
        setup: &Setup,
        left: &[Kept],
        failing: Failing,
        said: &mut String,
    ) -> Result<World<Store>, Unopened> {
        let stores = stores_of(alloc, left, failing)?;
        match opened(alloc, setup, stores) {
            Ok(world) => Ok(world),
            Err((Refused::Memory, _stores)) => Err(Unopened::Row(RowFault::Memory)),
            Err((why, stores)) => {
                write!(said, "{why}, then ")?;
                open_again(alloc, setup, stores, said)
            }
        }
    }

    fn make(&mut self, step: &Step) -> Result<Answer, Fault> {
        self.step(step)
    }

    fn events(&self) -> usize {
        self.history().len()
    }

    fn content(&self, object: ObjectId) -> Result<Content, RowFault> {
        let count = self.setup().objects(object.guardian).len();
        if object.guardian == 0 || object.number == 0 || object.number as usize > count {
            return Err(RowFault::Unread);
        }
        Ok(self.base(object)?)
    }

    fn kept(&self, guardian: u32) -> Option<&Kept> {
        self.guardian(guardian)?.store().kept()
    }

    fn failures(&self, guardian: u32) -> Option<u64> {
        Some(self.guardian(guardian)?.store().failures())
    }
}

/// Stores that hold this.
fn stores_of(alloc: Global, left: &[Kept], failing: Failing) -> Result<Vec<Store>, AllocError> {
    let mut stores = Vec::new(alloc);
    for (place, kept) in left.iter().enumerate() {
        let inner = PlainStable::from(kept.copy(alloc)?);
        stores.push(FailOnce::new(inner, failing.call_at(place)))?;
    }
    Ok(stores)
}

/// A world over these stores; else the stores come back.
fn opened(
    alloc: Global,
    setup: &Setup,
    stores: Vec<Store>,
) -> Result<World<Store>, (Refused, Vec<Store>)> {
    if stores.len() != setup.guardians() {
        return Err((Refused::NotOurs, stores));
    }
    match setup.copy() {
        Ok(setup) => World::reopen(alloc, setup, stores),
        Err(_) => Err((Refused::Memory, stores)),
    }
}

/// A world over the stores that came back; else it is said why not.
fn open_again(
    alloc: Global,
    setup: &Setup,
    stores: Vec<Store>,
    said: &mut String,
) -> Result<World<Store>, Unopened> {
    match opened(alloc, setup, stores) {
        Ok(world) => Ok(world),
        Err((Refused::Memory, _stores)) => Err(Unopened::Row(RowFault::Memory)),
        Err((why, stores)) => {
            write!(said, "{why}")?;
            Err(Unopened::Stores(held_in(alloc, stores.as_slice())?))
        }
    }
}

/// What the stores hold.
fn held_in(alloc: Global, stores: &[Store]) -> Result<Vec<Kept>, RowFault> {
    let mut held = Vec::new(alloc);
    for store in stores {
        let kept = store.kept().ok_or(RowFault::Unread)?;
        held.push(kept.copy(alloc)?).map_err(AllocError::from)?;
    }
    Ok(held)
}
