use crate::fault::StoreFault;
use crate::kept::{Kept, Prepared};
use crate::laid::{can_move, lay, lay_values, move_over};
use crate::numbers::{has_zero, is_misnumbered};
use crate::stable::{GREATEST_COUNT, Stable};
use atomic_types::Part;
use std::alloc::Global;
use std::collections::BTreeMap;
use values::Content;

/// A store in memory. No device can fail it, so it counts no failure but the `bump` and the numbers that are refused.
#[derive(Drop)]
pub struct PlainStable {
    kept: Kept,
    failures: u64,
}

impl PlainStable {
    ghost use Rattle.std.specs.Prelude.{◌≡◌, ◌+◌, min, true};
    ghost use Rattle.stable_store.specs.Stored.{empty};
    ghost use Rattle.stable_store.specs.Calls.{View, HasCounted};
    ghost use Rattle.stable_store.specs.Plain.{plain_view};
    ghost use Rattle.stable_store.specs.declared.fault.StoreFault.TheVariants.{Failed};

    /// An empty store, whose count is 0. This takes no memory.
    pub fn new(alloc: Global) -> PlainStable
        ensures content { (plain_view result).content ≡ empty }
        ensures failures { (plain_view result).failures ≡ 0 }
    {
        PlainStable::from(Kept::new(alloc))
    }

    /// Counts a failure.
    fn refuse(&mut self) -> StoreFault
        ensures fault { result ≡ Failed }
        ensures kept { self.new.kept ≡ self.old.kept }
        ensures counted { HasCounted self.old.failures self.new.failures }
    {
        self.failures = self.failures.saturating_add(1);
        StoreFault::Failed
    }
}

impl From<Kept> for PlainStable {
    ghost use Rattle.std.specs.Prelude.{◌≡◌};
    ghost use Rattle.stable_store.specs.Calls.{View};
    ghost use Rattle.stable_store.specs.Held.{held};
    ghost use Rattle.stable_store.specs.Plain.{plain_view};

    ghost from_gives = { λ kept store. ((plain_view store).content ≡ held kept)
        × ((plain_view store).failures ≡ 0) };

    /// A store with this content, which has counted no failure. This takes no memory.
    fn from(kept: Kept) -> PlainStable {
        PlainStable { kept, failures: 0 }
    }
}

impl Stable for PlainStable {
    ghost use Rattle.stable_store.specs.Plain.{plain_view};

    ghost seen = { plain_view };

    ghost may_fail = { λ _ _. ⊥ };

    ghost read = { Unit {0} };

    fn prepare(
        &mut self,
        _alloc: Global,
        top: u32,
        home: u32,
        parts: BTreeMap<u32, Part>,
    ) -> Result<(), StoreFault> {
        if is_misnumbered(top, home, &parts) {
            return Err(self.refuse());
        }
        drop(self.kept.prepared.insert(top, Prepared { home, parts })?);
        self.kept.next_top = self.kept.next_top.max(u64::from(top) + 1);
        Ok(())
    }

    fn install(&mut self, alloc: Global, top: u32) -> Result<(), StoreFault> {
        let Some(record) = self.kept.prepared.get(&top) else {
            return Ok(());
        };
        if can_move(&self.kept.base, &record.parts) {
            if let Some(record) = self.kept.prepared.remove(&top) {
                move_over(&mut self.kept.base, record.parts);
            }
            return Ok(());
        }
        drop(lay(alloc, &mut self.kept.base, &record.parts)?);
        drop(self.kept.prepared.remove(&top));
        Ok(())
    }

    fn discard(&mut self, top: u32) -> Result<(), StoreFault> {
        drop(self.kept.prepared.remove(&top));
        Ok(())
    }

    fn decide(&mut self, top: u32) -> Result<(), StoreFault> {
        if top == 0 {
            return Err(self.refuse());
        }
        self.kept.decided.insert(top)?;
        Ok(())
    }

    fn bump(&mut self) -> Result<(), StoreFault> {
        if self.kept.count >= GREATEST_COUNT {
            return Err(self.refuse());
        }
        self.kept.count += 1;
        Ok(())
    }

    fn save(&mut self, alloc: Global, contents: &BTreeMap<u32, Content>) -> Result<(), StoreFault> {
        if has_zero(contents) {
            return Err(self.refuse());
        }
        drop(lay_values(alloc, &mut self.kept.base, contents)?);
        self.kept.decided.clear();
        Ok(())
    }

    fn load(&mut self, alloc: Global) -> Result<Kept, StoreFault> {
        Ok(self.kept.copy(alloc)?)
    }

    fn kept(&self) -> Option<&Kept> {
        Some(&self.kept)
    }

    fn failures(&self) -> u64 {
        self.failures
    }
}
