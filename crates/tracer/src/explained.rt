//! The list of what an action sees.
ghost use Rattle.std.specs.Prelude.{◌≡◌, suc, List, ◌∷◌, length, filter, IfOk, IfSome, OnOk};
ghost use Rattle.run_model.specs.declared.history.Event.{Event};
ghost use Rattle.run_model.specs.Visibility.{is_visible};
ghost use Rattle.run_model.specs.Keeping.{performed_by};
ghost use Rattle.run_model.specs.Places.{visible_by_place};
ghost use Rattle.run_model.specs.Openings.{Opening};
ghost use Rattle.run_model.specs.Runs.{IsRun};
ghost use Rattle.run_model.specs.Explaining.{explanation};
ghost use Rattle.tracer.specs.Endings.{AreEndings};
ghost use Rattle.tracer.specs.Explained.{listed, AreByPlace, IsPlaced, Explains, IsReplayed};

use crate::actions::is_begun;
use crate::endings::Endings;
use crate::orphans::is_orphan;
use crate::place::Place;
use run_model::{Answer, Event, History, Name, ObjectId, Op, Reply, Step};
use std::alloc::{AllocError, Global};
use std::collections::BTreeMap;

/// A granted operation.
#[derive(Drop)]
pub struct Performed {
    /// The number of its event in the history, from 1.
    pub number: u64,
    pub action: Name,
    pub object: ObjectId,
    pub operation: Op,
    pub reply: Reply,
}

/// What is explained of an action.
#[derive(Drop)]
pub enum Explained {
    NotBegun,
    /// An ancestor aborted, or a lost action of its own tree is visible to it.
    Orphan,
    /// The granted operations that it sees, by place in the serial order: replayed in this order on one plain store
    /// with the contents of the opening, they give just these replies.
    Sees(BTreeMap<Place, Performed>),
}

/// What the action sees of the history (Lynch, Merritt, Weihl and Fekete).
///
/// # Errors
/// `AllocError` where memory is wanting.
pub fn explain(alloc: Global, history: &History, action: &Name) -> Result<Explained, AllocError>
    ensures explained { IfOk result
        (λ told. Explains told (explanation action.now history.now) history.now) }
    ensures replayed { (opening : Opening) → IsRun opening history.now
        → IfOk result (λ told. IsReplayed opening told) }
{
    if !is_begun(history, action) {
        return Ok(Explained::NotBegun);
    }
    let endings = Endings::of(alloc, history)?;
    if is_orphan(alloc, history, &endings, action)? {
        return Ok(Explained::Orphan);
    }
    Ok(Explained::Sees(seen_by_place(alloc, history, &endings, action)?))
}

/// The operations that the action sees. The newest is put into its place first, as the definition has it.
fn seen_by_place(
    alloc: Global,
    history: &History,
    endings: &Endings,
    action: &Name,
) -> Result<BTreeMap<Place, Performed>, AllocError>
    ensures { AreEndings endings.now history.now
        → IfOk result
        (λ seen. AreByPlace seen.entries (visible_by_place action.now history.now) history.now) }
{
    let mut seen = BTreeMap::new(alloc);
    let mut events = history.events();
    while let Some((event, past)) = events.split_last() {
        let number = events.len() as u64;
        place_operation(alloc, event, number, endings, action, &mut seen)?;
        events = past;
    }
    Ok(seen)
}

/// Puts the operation that the event of this number granted into its place, if it did and the action sees it.
fn place_operation(
    alloc: Global,
    event: &Event,
    number: u64,
    endings: &Endings,
    action: &Name,
    seen: &mut BTreeMap<Place, Performed>,
) -> Result<(), AllocError>
    ensures { (now past : List Event) → AreEndings endings.now now → number ≡ suc (length past)
        → IsPlaced action.now now (event.now ∷ past) seen.old.entries
        → OnOk result (IsPlaced action.now now past seen.new.entries) }
{
    if let Some(performed) = seen_operation(alloc, event, number, endings, action)? {
        let place = endings.place_of(alloc, number, &performed.action)?;
        seen.insert(place, performed)?;
    }
    Ok(())
}

/// The operation that the event of this number granted, if it did and the action sees it.
fn seen_operation(
    alloc: Global,
    event: &Event,
    number: u64,
    endings: &Endings,
    action: &Name,
) -> Result<Option<Performed>, AllocError>
    ensures seen { (past : List Event) → AreEndings endings.now past
        → IfOk result
        (λ seen. listed seen
        ≡ filter (λ o. is_visible o.action action.now past)
        (performed_by number event.now.step event.now.answer)) }
    ensures numbered { IfOk result (λ seen. IfSome seen (λ performed. performed.number ≡ number)) }
{
    let (Step::Op(actor, object, operation), Answer::Granted(reply)) = (&event.step, &event.answer)
    else {
        return Ok(None);
    };
    if !endings.is_visible(alloc, actor, action)? {
        return Ok(None);
    }
    Ok(Some(Performed {
        number,
        action: actor.copy()?,
        object: *object,
        operation: operation.copy()?,
        reply: reply.copy()?,
    }))
}
