//! An accepted event is kept at what is locked, and added to the run in the very step that draws its
//! stamp.
ghost use Rattle.std.specs.Prelude.{◌≡◌, ◌==◌, ◌<◌, ◌⊎◌, false, IfOk, IsErrOf, IsTrue, OnErr};
ghost use Rattle.one_run.specs.Pieces.{first_left, seen_of};
ghost use Rattle.one_run.specs.Rules.{Adds, others_of};
ghost use Rattle.run_model.specs.Answers.{answer_of};
ghost use Rattle.run_model.specs.Runs.{IsRun, is_accepted};
ghost use Rattle.layer_contracts.specs.Stores.{CountsFailure};
ghost use Rattle.layer_contracts.specs.declared.guardian.Fault.TheVariants.{Stable};
ghost use Rattle.world_steps.specs.Naming.{AreNamed};
ghost use Rattle.world_steps.specs.Standings.{Names, forest_of};
ghost use Rattle.shared_run.specs.Places.{touches};
ghost use Rattle.locked_run.specs.Acting.{StoreAfter, kept_outcome};
ghost use Rattle.locked_run.specs.Parts.{AreLocked};

use crate::shared::{Deed, Drawing, OfRun, Shared};
use layer_contracts::{EventRef, Fault, Forest, Guardian};
use one_run::Part;
use run_model::Event;
use std::alloc::Global;
use std::marker::PhantomData;
use world_steps::{Messages, NamedGuardians, keep_one, keep_two};

/// Keeps an event at two guardians, which have these numbers, and in the registry. After an error
/// all stand where they stood, and nothing was added.
pub(crate) fn keep_at_two<K: OfRun, T: Deed, R: Forest, G: Guardian>(
    alloc: Global,
    shared: &Shared<K>,
    registry: &mut R,
    one: &mut G,
    other: &mut G,
    low: u32,
    high: u32,
    part: Part<Event>,
    named: NamedGuardians,
    event: &EventRef<'_>,
) -> (Part<Event>, Result<u64, Fault>)
    requires table { part.token.table_id ≡ K.table }
    requires left { 0 < first_left part.token.me.0 }
    requires deed { T.event ≡ event.now }
    requires named { AreNamed (R.stands registry.old) event.now.step named }
    requires apart { (low == high) ≡ false }
    requires names { Names (forest_of K.opening (seen_of part.token.me.0)) event.now.step low high }
    requires locked { AreLocked K.opening (R.stands registry.old) (G.stands one.old)
        (G.stands other.old) low high part.token.me.0 }
    requires answered { event.now.answer
        ≡ answer_of K.opening event.now.step (seen_of part.token.me.0) }
    requires accepted { IsTrue (is_accepted event.now.answer) }
    ensures table { result.0.token.table_id ≡ K.table }
    ensures added { IfOk result.1 (λ number. Adds (IsRun K.opening) touches event.now
        part.token.me.0 number result.0.token.me.0) }
    ensures locked { IfOk result.1
        (λ number. AreLocked K.opening (R.stands registry.new) (G.stands one.new)
        (G.stands other.new) low high (others_of result.0.token.me.0)) }
    ensures same { OnErr result.1 (result.0.token.me.0 ≡ part.token.me.0) }
    ensures err { OnErr result.1 (AreLocked K.opening (R.stands registry.new) (G.stands one.new)
        (G.stands other.new) low high part.token.me.0) }
    ensures first_store { StoreAfter K.opening event.now.step (kept_outcome result.1)
        (seen_of result.0.token.me.0) low (G.stored one.old) (G.stored one.new) }
    ensures second_store { StoreAfter K.opening event.now.step (kept_outcome result.1)
        (seen_of result.0.token.me.0) high (G.stored other.old) (G.stored other.new) }
    ensures cause { IsErrOf result.1 Stable → CountsFailure (G.stored one.old) (G.stored one.new)
        ⊎ CountsFailure (G.stored other.old) (G.stored other.new) }
{
    let mut drawing = Drawing::<K, T> {
        shared,
        part,
        of: PhantomData,
    };
    let mut messages = Messages::empty(alloc);
    let kept = keep_two(
        alloc,
        &mut messages,
        registry,
        one,
        other,
        named,
        event,
        &mut drawing,
    );
    let Drawing {
        shared: _,
        part,
        of: _,
    } = drawing;
    match kept {
        Ok(number) => (part, Ok(number)),
        Err(fault) => (part, Err(fault)),
    }
}

/// Keeps an event at one guardian, which has this number, and in the registry.
pub(crate) fn keep_at_one<K: OfRun, T: Deed, R: Forest, G: Guardian>(
    alloc: Global,
    shared: &Shared<K>,
    registry: &mut R,
    guardian: &mut G,
    number: u32,
    part: Part<Event>,
    named: NamedGuardians,
    event: &EventRef<'_>,
) -> (Part<Event>, Result<u64, Fault>)
    requires table { part.token.table_id ≡ K.table }
    requires left { 0 < first_left part.token.me.0 }
    requires deed { T.event ≡ event.now }
    requires named { AreNamed (R.stands registry.old) event.now.step named }
    requires names { Names (forest_of K.opening (seen_of part.token.me.0))
        event.now.step number number }
    requires locked { AreLocked K.opening (R.stands registry.old) (G.stands guardian.old)
        (G.stands guardian.old) number number part.token.me.0 }
    requires answered { event.now.answer
        ≡ answer_of K.opening event.now.step (seen_of part.token.me.0) }
    requires accepted { IsTrue (is_accepted event.now.answer) }
    ensures table { result.0.token.table_id ≡ K.table }
    ensures added { IfOk result.1 (λ stamp. Adds (IsRun K.opening) touches event.now
        part.token.me.0 stamp result.0.token.me.0) }
    ensures locked { IfOk result.1 (λ stamp. AreLocked K.opening (R.stands registry.new)
        (G.stands guardian.new) (G.stands guardian.new) number number
        (others_of result.0.token.me.0)) }
    ensures same { OnErr result.1 (result.0.token.me.0 ≡ part.token.me.0) }
    ensures err { OnErr result.1
        (AreLocked K.opening (R.stands registry.new) (G.stands guardian.new)
        (G.stands guardian.new) number number part.token.me.0) }
    ensures store { StoreAfter K.opening event.now.step (kept_outcome result.1)
        (seen_of result.0.token.me.0) number (G.stored guardian.old) (G.stored guardian.new) }
    ensures cause { IsErrOf result.1 Stable → CountsFailure (G.stored guardian.old)
        (G.stored guardian.new) }
{
    let mut drawing = Drawing::<K, T> {
        shared,
        part,
        of: PhantomData,
    };
    let mut messages = Messages::empty(alloc);
    let kept = keep_one(
        alloc,
        &mut messages,
        registry,
        guardian,
        named,
        event,
        &mut drawing,
    );
    let Drawing {
        shared: _,
        part,
        of: _,
    } = drawing;
    match kept {
        Ok(stamp) => (part, Ok(stamp)),
        Err(fault) => (part, Err(fault)),
    }
}
