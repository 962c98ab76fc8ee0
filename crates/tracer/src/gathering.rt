//! Whether a run is gathered from histories: their events are made as steps, by stamp.
ghost use Rattle.std.specs.Prelude.{◌≡◌, ◌≤◌, [], ◌∷◌, ◌++◌, ◌==◌, ◌&&◌, ◌||◌, not, ℕ, Bool, IsTrue, IfOk, OnOk, List, length, max, filter};
ghost use Rattle.std.specs.List.{list_any, prefix_len};
ghost use Rattle.run_model.specs.declared.history.Event.{Event};
ghost use Rattle.run_model.specs.Gathering.{differ, same_event};
ghost use Rattle.run_model.specs.Lists.{up_to};
ghost use Rattle.run_model.specs.Openings.{opening_in};
ghost use Rattle.run_model.specs.Runs.{IsRun};
ghost use Rattle.run_laws.specs.Serving.{IsServed};
ghost use Rattle.traces.specs.Traces.{histories_in};
ghost use Rattle.tracer.specs.Copies.{Copied, has_copy, has_late, has_other, is_contradicted, stand_elsewhere, turn_fails};
ghost use Rattle.tracer.specs.Gathered.{Says, is_beside, is_guardian, lacks_copy};
ghost use Rattle.tracer.specs.Homes.{AreHomes};

use crate::copies::{Copied, copies_by_stamp};
use crate::homes::Homes;
use crate::same::{same_answer, same_event};
use crate::steps::takes_registry;
use run_model::Event;
use std::alloc::{AllocError, Global};
use stepping::{Fault, MakesSteps};
use traces::Stamped;

/// Whether a run is gathered from histories.
#[derive(Drop)]
pub enum Gathered {
    /// The maker has made it; it has so many events.
    Yes(usize),
    /// They fail at this stamp, and at no smaller one.
    No(u64),
}

/// Makes the events of the histories as steps, by stamp, up to the first stamp at which the histories fail. The maker
/// is one to which nothing has happened.
///
/// # Errors
/// The fault of a step, and `AllocError` where memory is wanting.
pub fn gather<M: MakesSteps>(
    alloc: Global,
    maker: &mut M,
    registry: &[Stamped],
    guardians: &[Vec<Stamped>],
) -> Result<Gathered, Fault>
    requires { (M.run maker.old).past ≡ [] }
    ensures gathered { IfOk result (λ said. Says said (opening_in (M.run maker.old).lists)
        (histories_in registry.now guardians.now) (M.run maker.new).past) }
    // also after a fault
    ensures served { IsServed (opening_in (M.run maker.new).lists) (M.run maker.new).past }
    ensures opening { (M.run maker.new).lists ≡ (M.run maker.old).lists }
{
    let limit = maker.opening().setup().guardians().max(guardians.len());
    let copies = copies_by_stamp(alloc, registry, guardians)?;
    let mut homes = Homes::new(alloc);
    let mut rest = copies.as_slice();
    let mut count = 0;
    while let Some(first) = rest.first() {
        let (turn, later) = rest.split_at(turn_len(rest, first.stamp));
        if !take_turn(alloc, maker, &mut homes, limit, turn)? {
            return Ok(Gathered::No(first.stamp));
        }
        count += 1;
        rest = later;
    }
    Ok(Gathered::Yes(count))
}

/// How many copies at the front have the stamp.
fn turn_len(copies: &[Copied<'_>], stamp: u64) -> usize
    ensures value { result ≡ prefix_len (λ c. c.stamp == stamp) copies.now }
    ensures within { result ≤ length copies.now }
{
    copies.iter().take_while(|copy| copy.stamp == stamp).count()
}

/// Makes the event of the copies of one stamp as a step, unless the histories fail at it.
fn take_turn<M: MakesSteps>(
    alloc: Global,
    maker: &mut M,
    homes: &mut Homes,
    limit: usize,
    turn: &[Copied<'_>],
) -> Result<bool, Fault>
    requires { 1 ≤ length turn.now }
    ensures fails { (others : List Copied) → (last : Copied) → turn.now ≡ others ++ last ∷ []
        → AreHomes homes.old (M.run maker.old).past → IfOk result (λ fine. fine
        ≡ not (turn_fails (opening_in (M.run maker.old).lists) limit last.event
        (M.run maker.old).past turn.now)) }
    ensures made { (others : List Copied) → (last : Copied) → turn.now ≡ others ++ last ∷ []
        → IfOk result (λ fine. IsTrue fine
        → (M.run maker.new).past ≡ last.event ∷ (M.run maker.old).past) }
    ensures homes { AreHomes homes.old (M.run maker.old).past → IfOk result (λ fine. IsTrue fine
        → AreHomes homes.new (M.run maker.new).past) }
    ensures run { IsRun (opening_in (M.run maker.old).lists) (M.run maker.old).past
        → IsRun (opening_in (M.run maker.new).lists) (M.run maker.new).past }
    ensures opening { (M.run maker.new).lists ≡ (M.run maker.old).lists }
{
    let Some((last, others)) = turn.split_last() else {
        unreachable!()
    };
    let event = last.event;
    if has_late(turn)
        || has_other(alloc, event, others)?
        || stand_elsewhere(homes, limit, event, turn)?
    {
        return Ok(false);
    }
    if !make(maker, event)? {
        return Ok(false);
    }
    homes.add(&event.step, &event.answer)?;
    Ok(true)
}

/// Makes the event's step. Whether it is accepted, with the event's answer.
fn make<M: MakesSteps>(maker: &mut M, event: &Event) -> Result<bool, Fault>
    ensures value { IfOk result (λ fine. fine ≡ not (is_contradicted
        (opening_in (M.run maker.old).lists) event.now (M.run maker.old).past)) }
    ensures made { IfOk result (λ fine. IsTrue fine
        → (M.run maker.new).past ≡ event.now ∷ (M.run maker.old).past) }
    ensures run { IsRun (opening_in (M.run maker.old).lists) (M.run maker.old).past
        → IsRun (opening_in (M.run maker.new).lists) (M.run maker.new).past }
    ensures opening { (M.run maker.new).lists ≡ (M.run maker.old).lists }
{
    let answer = maker.step(&event.step)?;
    Ok(answer.is_accepted() && same_answer(&answer, &event.answer))
}

fn has_late(turn: &[Copied<'_>]) -> bool
    ensures { result ≡ has_late turn.now }
{
    turn.iter().any(|copy| copy.is_late)
}

/// Whether a copy is of another event.
fn has_other(alloc: Global, event: &Event, turn: &[Copied<'_>]) -> Result<bool, AllocError>
    ensures { IfOk result (λ found. found ≡ has_other event.now turn.now) }
{
    for copy in turn {
        if !same_event(alloc, copy.event, event)? {
            return Ok(true);
        }
    }
    Ok(false)
}

/// Whether the copies stand in other histories than those that the event's step names.
fn stand_elsewhere(
    homes: &Homes,
    limit: usize,
    event: &Event,
    turn: &[Copied<'_>],
) -> Result<bool, AllocError>
    ensures { (past : List Event) → AreHomes homes.now past → IfOk result (λ elsewhere.
        elsewhere ≡ stand_elsewhere limit event.now past turn.now) }
{
    if has_copy(0, turn) != takes_registry(&event.step) {
        return Ok(true);
    }
    let (one, other) = homes.named(&event.step)?;
    Ok(stand_at_others(one as usize, other as usize, limit, turn))
}

/// Whether the copies stand at other guardians up to the limit than at these two.
fn stand_at_others(one: usize, other: usize, limit: usize, turn: &[Copied<'_>]) -> bool
    ensures { (named : ℕ → Bool) → ((g : ℕ) → named g ≡ ((one == g) || (other == g)))
        → result ≡ list_any (λ g. differ (has_copy g turn.now) (named g)) (up_to limit) }
{
    lacks_copy(one, limit, turn)
        || lacks_copy(other, limit, turn)
        || stand_beside(one, other, limit, turn)
}

/// Whether the guardian is one up to the limit, and has no copy.
fn lacks_copy(guardian: usize, limit: usize, turn: &[Copied<'_>]) -> bool
    ensures { result ≡ lacks_copy guardian limit turn.now }
{
    is_guardian(limit, guardian) && !has_copy(guardian, turn)
}

/// Whether a guardian up to the limit that is none of these two has a copy.
fn stand_beside(one: usize, other: usize, limit: usize, turn: &[Copied<'_>]) -> bool
    ensures { result ≡ list_any (λ c. is_beside one other limit c.history) turn.now }
{
    turn.iter().any(|copy| is_guardian(limit, copy.history)
        && !(one == copy.history || other == copy.history))
}

fn is_guardian(limit: usize, history: usize) -> bool
    ensures { result ≡ is_guardian limit history }
{
    1 <= history && history <= limit
}

fn has_copy(history: usize, turn: &[Copied<'_>]) -> bool
    ensures { result ≡ has_copy history turn.now }
{
    turn.iter().any(|copy| copy.history == history)
}
