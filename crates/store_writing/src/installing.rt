//! The statements that write parts into the base, within a transaction.
ghost use Rattle.std.specs.Prelude.{◌≡◌, ◌<◌, ℕ, false, List, [], ◌∷◌, ◌++◌, length, OnOk};
ghost use Rattle.sqlite.specs.State.{Survives};
ghost use Rattle.sqlite.specs.Held.{state};
ghost use Rattle.atomic_types.specs.declared.part.Part.{Part as Spec};
ghost use Rattle.stable_store.specs.Stored.{Stored};
ghost use Rattle.stable_store.specs.Numbers.{has_zero};
ghost use Rattle.store_tables.specs.Changes.{with_base, with_part, all_put};
ghost use Rattle.store_writing.specs.Steps.{While, Sees, Stays, Steps};
ghost use Rattle.store_writing.specs.Waiting.{IsTextOf, AreTextsOf, Waits, Takes, IsAny};

use crate::faults::OUT_OF_MEMORY;
use crate::parameters::{number, words};
use crate::waiting::{PartText, RUN, base_parameters, wait};
use atomic_types::Part;
use sqlite::{Alter, Error, Transaction};
use std::alloc::Global;
use std::collections::BTreeMap;

/// The statement that writes sixteen parts into the base.
const BASE_RUN: &str =
    "INSERT OR REPLACE INTO base VALUES (?1, ?2), (?3, ?4), (?5, ?6), (?7, ?8), (?9, ?10), (?11, ?12), (?13, ?14), \
    (?15, ?16), (?17, ?18), (?19, ?20), (?21, ?22), (?23, ?24), (?25, ?26), (?27, ?28), (?29, ?30), (?31, ?32)";

/// Writes parts into the base, each in place of what its object had.
pub(crate) fn put_base<A: Alter>(
    tx: &mut Transaction<'_, A>,
    alloc: Global,
    parts: &BTreeMap<u32, Part>,
) -> Result<(), Error>
    ensures same { tx.new.conn.ghost_name ≡ tx.old.conn.ghost_name }
    ensures survives { Survives (state A.Store tx.old.conn.now) (state A.Store tx.new.conn.now)
        (λ _. ⊥) }
    ensures steps { (c : Stored)
        → While (state A.Store tx.old.conn.now) (has_zero parts.now.entries ≡ false)
        → Stays (state A.Store tx.old.conn.now) c → Steps (state A.Store tx.old.conn.now)
        (state A.Store tx.new.conn.now) (with_base (all_put parts.now.entries c.base) c) result }
{
    let mut waiting = Vec::new(alloc);
    for (&object, part) in parts {
        match take_installed(tx, alloc, &mut waiting, object, part) {
            Ok(()) => {}
            Err(error) => return Err(error),
        }
    }
    install_rest(tx, &waiting)
}

/// Takes one part more for the base, and writes those that wait once there are sixteen.
fn take_installed<A: Alter>(
    tx: &mut Transaction<'_, A>,
    alloc: Global,
    waiting: &mut Vec<PartText>,
    object: u32,
    part: &Part,
) -> Result<(), Error>
    requires few { length waiting.old.items < 16 }
    ensures same { tx.new.conn.ghost_name ≡ tx.old.conn.ghost_name }
    ensures survives { Survives (state A.Store tx.old.conn.now) (state A.Store tx.new.conn.now)
        (λ _. ⊥) }
    ensures few { OnOk result (length waiting.new.items < 16) }
    ensures steps { (written all : List (ℕ × Spec)) (c : Stored)
        → While (state A.Store tx.old.conn.now) (has_zero (all ++ (object, part.now) ∷ []) ≡ false)
        → Waits IsAny waiting.old.items written all
        → Stays (state A.Store tx.old.conn.now) (with_base (all_put written c.base) c)
        → Takes IsAny (state A.Store tx.old.conn.now) (state A.Store tx.new.conn.now)
        waiting.new.items (all ++ (object, part.now) ∷ [])
        (λ es. with_base (all_put es c.base) c) result }
{
    let Ok(()) = wait(alloc, waiting, object, part) else {
        return Err(OUT_OF_MEMORY);
    };
    if waiting.len() < RUN {
        return Ok(());
    }
    match install_run(tx, alloc, waiting.as_slice()) {
        Ok(()) => {
            waiting.clear();
            Ok(())
        }
        Err(error) => Err(error),
    }
}

/// Writes sixteen parts into the base.
fn install_run<A: Alter>(
    tx: &mut Transaction<'_, A>,
    alloc: Global,
    parts: &[PartText],
) -> Result<(), Error>
    requires full { length parts.now ≡ 16 }
    ensures same { tx.new.conn.ghost_name ≡ tx.old.conn.ghost_name }
    ensures survives { Survives (state A.Store tx.old.conn.now) (state A.Store tx.new.conn.now)
        (λ _. ⊥) }
    ensures steps { (es : List (ℕ × Spec)) (c : Stored)
        → While (state A.Store tx.old.conn.now) (has_zero es ≡ false)
        → AreTextsOf parts.now es → Sees (state A.Store tx.old.conn.now) c
        → Steps (state A.Store tx.old.conn.now) (state A.Store tx.new.conn.now)
        (with_base (all_put es c.base) c) result }
{
    let Ok(parameters) = base_parameters(alloc, parts) else {
        return Err(OUT_OF_MEMORY);
    };
    match tx.execute(BASE_RUN, &parameters) {
        Ok(_) => Ok(()),
        Err(error) => Err(error),
    }
}

/// Writes the parts that wait into the base, one by one.
fn install_rest<A: Alter>(tx: &mut Transaction<'_, A>, waiting: &[PartText]) -> Result<(), Error>
    ensures same { tx.new.conn.ghost_name ≡ tx.old.conn.ghost_name }
    ensures survives { Survives (state A.Store tx.old.conn.now) (state A.Store tx.new.conn.now)
        (λ _. ⊥) }
    ensures steps { (written all : List (ℕ × Spec)) (c : Stored)
        → While (state A.Store tx.old.conn.now) (has_zero all ≡ false)
        → Waits IsAny waiting.now written all
        → Stays (state A.Store tx.old.conn.now) (with_base (all_put written c.base) c)
        → Steps (state A.Store tx.old.conn.now) (state A.Store tx.new.conn.now)
        (with_base (all_put all c.base) c) result }
{
    for part in waiting {
        match put_installed(tx, part) {
            Ok(()) => {}
            Err(error) => return Err(error),
        }
    }
    Ok(())
}

/// Writes one part into the base.
fn put_installed<A: Alter>(tx: &mut Transaction<'_, A>, part: &PartText) -> Result<(), Error>
    ensures same { tx.new.conn.ghost_name ≡ tx.old.conn.ghost_name }
    ensures survives { Survives (state A.Store tx.old.conn.now) (state A.Store tx.new.conn.now)
        (λ _. ⊥) }
    ensures steps { (e : ℕ × Spec) (c : Stored) → While (state A.Store tx.old.conn.now) (0 < e.0)
        → IsTextOf part.now e → Sees (state A.Store tx.old.conn.now) c
        → Steps (state A.Store tx.old.conn.now) (state A.Store tx.new.conn.now)
        (with_part e.0 e.1 c) result }
{
    match tx.execute(
        "INSERT OR REPLACE INTO base VALUES (?1, ?2)",
        &[number(part.object), words(&part.text)],
    ) {
        Ok(_) => Ok(()),
        Err(error) => Err(error),
    }
}
