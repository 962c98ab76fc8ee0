//! The copies of events in all histories, by stamp.
ghost use Rattle.std.specs.Prelude.{◌≡◌, [], ◌∷◌, ◌++◌, ℕ, IfOk, OnOk, List, Some};
ghost use Rattle.traces.specs.Traces.{histories_in};
ghost use Rattle.tracer.specs.Copies.{AreByStamp, copies_from, copies_in};
ghost use Rattle.tracer.specs.Late.{IsHighest, is_at_most};

use run_model::Event;
use std::alloc::{AllocError, Global};
use std::marker::Model;
use traces::Stamped;

/// An event as one history has it.
#[derive(Drop)]
pub(crate) struct Copied<'a> {
    pub(crate) stamp: u64,
    /// 0 for the registry's history, or a guardian's number.
    pub(crate) history: usize,
    /// Whether an event before it in its history has no smaller stamp.
    pub(crate) is_late: bool,
    pub(crate) event: &'a Event,
}

impl<'a> Model for Copied<'a> {
    ghost use Rattle.tracer.specs.Copies.{Copied as Copy};

    ghost Value = { Copy };

    ghost view = { λ a. record {
      stamp = a.stamp;
      history = a.history;
      is_late = a.is_late;
      event = a.event.now;
    } };
}

/// The copies of all histories by stamp, those of one stamp in the order of the histories.
pub(crate) fn copies_by_stamp<'a>(
    alloc: Global,
    registry: &'a [Stamped],
    guardians: &'a [Vec<Stamped>],
) -> Result<Vec<Copied<'a>>, AllocError>
    ensures { IfOk result (λ copies.
        AreByStamp (histories_in registry.now guardians.now) copies.items) }
{
    let mut copies = all_copies(alloc, registry, guardians)?;
    copies.sort_by_key(|copy| copy.stamp)?;
    Ok(copies)
}

/// The copies of the registry's history, and behind them those of the guardians' histories.
fn all_copies<'a>(
    alloc: Global,
    registry: &'a [Stamped],
    guardians: &'a [Vec<Stamped>],
) -> Result<Vec<Copied<'a>>, AllocError>
    ensures { IfOk result (λ copies.
        copies.items ≡ copies_in (histories_in registry.now guardians.now)) }
{
    let mut copies = Vec::new(alloc);
    add_copies(&mut copies, 0, registry)?;
    for (before, history) in guardians.iter().enumerate() {
        add_copies(&mut copies, before + 1, history)?;
    }
    Ok(copies)
}

/// Adds the copies of one history.
fn add_copies<'a>(
    copies: &mut Vec<Copied<'a>>,
    history: usize,
    events: &'a [Stamped],
) -> Result<(), AllocError>
    ensures { OnOk result
        (copies.new.items ≡ copies.old.items ++ copies_from history [] events.now) }
{
    let mut highest = None;
    for stamped in events {
        let stamp = stamped.stamp;
        copies.push(Copied {
            stamp,
            history,
            is_late: is_at_most(stamp, highest),
            event: &stamped.event,
        })?;
        highest = Some(higher(stamp, highest));
    }
    Ok(())
}

/// Whether there is a stamp so far, and this one is no greater.
fn is_at_most(stamp: u64, highest: Option<u64>) -> bool
    ensures { result ≡ is_at_most stamp highest }
{
    match highest {
        Some(highest) => stamp <= highest,
        None => false,
    }
}

/// The highest stamp so far, this one among them.
fn higher(stamp: u64, highest: Option<u64>) -> u64
    ensures { (seen : List ℕ) → IsHighest highest seen → IsHighest (Some result) (stamp ∷ seen) }
{
    match highest {
        Some(highest) => highest.max(stamp),
        None => stamp,
    }
}
