//! The end of a run.
ghost use Rattle.std.specs.Prelude.{◌≡◌, ◌≤◌, ◌∷◌, [], ℕ, IfErr, IfOk};
ghost use Rattle.std.specs.Prelude.{length, vec_capacity};
ghost use Rattle.std.specs.List.{AllZip};
ghost use Rattle.std.specs.List.Sorted.{IsNonDecreasingBy};
ghost use Rattle.locked_run.specs.Closing.{AreCounted, IsClosed, IsUnclosed};
ghost use Rattle.locked_run.specs.Parts.{registry_part};
ghost use Rattle.locked_run.specs.Settling.{HaveJoined, IsSettled, IsSettledThere};

use crate::held::{Held, HeldRegistry};
use crate::receipts::Receipts;
use crate::shared::{OfRun, Shared};
use crate::stored::StoredHistory;
use layer_contracts::{Forest, Guardian};
use one_run::Part;
use run_model::Event;
use std::alloc::AllocError;

/// What stood under a lock when the run ended, and the events that the lock has kept.
#[derive(Drop)]
pub struct Ended<T> {
    pub value: T,
    pub history: StoredHistory,
}

/// All that stood under locks when the run ended, the guardians by number.
#[derive(Drop)]
pub struct Ends<R, G> {
    pub registry: Ended<R>,
    pub guardians: Vec<Ended<G>>,
}

/// Why a run is not closed.
#[derive(Drop)]
pub enum CloseFault<K: OfRun, R, G> {
    Memory,
    /// The receipts are not those of all events, each once. They come back.
    Receipts(Ends<R, G>, Receipts<K>),
}

impl<K: OfRun, R, G> From<AllocError> for CloseFault<K, R, G> {
    ghost use Rattle.std.specs.Prelude.{◌≡◌};
    ghost use Rattle.locked_run.specs.declared.closing.CloseFault.TheVariants.{Memory};

    ghost from_gives = { λ _ e. e ≡ Memory };

    fn from(_refused: AllocError) -> CloseFault<K, R, G> {
        CloseFault::Memory
    }
}

/// Ends the run, which is served: each action that is no orphan sees in it what one plain store would have
/// shown it, serially. All that stands under locks is a world of that run, and has kept its events. It is
/// closed exactly if these receipts are those of its events, each once; otherwise they come back.
pub fn close_all<K: OfRun, R: Forest, G: Guardian>(
    shared: Shared<K>,
    registry: HeldRegistry<K, R>,
    guardians: Vec<Held<K, G>>,
    receipts: Receipts<K>,
) -> Result<Ends<R, G>, CloseFault<K, R, G>>
    requires all { length guardians.items ≡ length K.opening.setup }
    ensures closed { IfOk result
        (λ ends. IsClosed G.stands G.stored R.stands K.opening receipts ends) }
    ensures unclosed { IfErr result (λ fault. IsUnclosed G.stands G.stored R.stands K.opening
        receipts fault) }
{
    let guardians = by_number(guardians)?;
    let room = Vec::with_capacity(*guardians.allocator(), guardians.len())?;
    let (mut part, ends) = settle_all(&shared, registry, guardians, room);
    let events = shared.run.count(&mut part);
    if receipts.len() != events {
        return Err(CloseFault::Receipts(ends, receipts));
    }
    count_with(&shared, part, receipts);
    Ok(ends)
}

/// The guardians by number.
fn by_number<K: OfRun, G: Guardian>(
    guardians: Vec<Held<K, G>>,
) -> Result<Vec<Held<K, G>>, AllocError>
    ensures count { IfOk result (λ sorted. length sorted.items ≡ length guardians.items) }
    ensures sorted { IfOk result (λ sorted. IsNonDecreasingBy (λ held. held.number) sorted.items) }
{
    let mut sorted = guardians;
    sorted.sort_by_key(|held| held.number())?;
    Ok(sorted)
}

/// Takes everything from under its lock, the parts of the run together.
fn settle_all<K: OfRun, R: Forest, G: Guardian>(
    shared: &Shared<K>,
    registry: HeldRegistry<K, R>,
    guardians: Vec<Held<K, G>>,
    room: Vec<Ended<G>>,
) -> (Part<Event>, Ends<R, G>)
    requires empty { room.items ≡ [] }
    requires room { length guardians.items ≤ vec_capacity room }
    ensures table { result.0.token.table_id ≡ K.table }
    ensures parts { (left : ℕ) × HaveJoined guardians.items (registry_part left registry ∷ [])
        result.0.token.me.0 }
    ensures there { IsSettledThere R.stands K.opening registry result.1.registry }
    ensures each { AllZip (IsSettled G.stands G.stored K.opening) guardians.items
        result.1.guardians.items }
{
    let (mut part, value, history) = registry.settle();
    let registry = Ended { value, history };
    let guardians = settle_guardians(shared, &mut part, guardians, room);
    (
        part,
        Ends {
            registry,
            guardians,
        },
    )
}

/// Takes the guardians from under their locks, and adds their parts.
fn settle_guardians<K: OfRun, G: Guardian>(
    shared: &Shared<K>,
    part: &mut Part<Event>,
    guardians: Vec<Held<K, G>>,
    room: Vec<Ended<G>>,
) -> Vec<Ended<G>>
    requires table { part.old.token.table_id ≡ K.table }
    requires empty { room.items ≡ [] }
    requires room { length guardians.items ≤ vec_capacity room }
    ensures table { part.new.token.table_id ≡ K.table }
    ensures parts { HaveJoined guardians.items part.old.token.me.0 part.new.token.me.0 }
    ensures each { AllZip (IsSettled G.stands G.stored K.opening) guardians.items result.items }
{
    let mut ended = room;
    for held in guardians {
        ended.push_reserved(settle_one(shared, part, held));
    }
    ended
}

/// Takes a guardian from under its lock, and adds its part.
fn settle_one<K: OfRun, G: Guardian>(
    shared: &Shared<K>,
    part: &mut Part<Event>,
    held: Held<K, G>,
) -> Ended<G>
    requires { part.old.token.table_id ≡ K.table }
    ensures table { part.new.token.table_id ≡ K.table }
    ensures part { HaveJoined (held ∷ []) part.old.token.me.0 part.new.token.me.0 }
    ensures settled { IsSettled G.stands G.stored K.opening held result }
{
    let (value, history) = held.settle(shared, part);
    // its store is that of its history
    value.number();
    Ended { value, history }
}

/// Counts the events of the run together with all receipts.
fn count_with<K: OfRun>(shared: &Shared<K>, part: Part<Event>, receipts: Receipts<K>)
    requires { part.token.table_id ≡ K.table }
    ensures { AreCounted K.opening part.token.me.0 receipts }
{
    let mut all = part;
    shared.run.join(&mut all, receipts.into_part());
    shared.run.count(&mut all);
}
