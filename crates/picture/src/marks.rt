//! What single events put into a picture: operations and messages.
ghost use Rattle.std.specs.Prelude.{◌≡◌, [], ◌∷◌, ◌++◌, map, if◌then◌else◌, List, OnOk};
ghost use Rattle.run_model.specs.declared.history.Event.{Event};
ghost use Rattle.run_model.specs.Keeping.{performed_by};
ghost use Rattle.picture.specs.Windows.{is_shown};
ghost use Rattle.picture.specs.Layouts.{AreBars, arrow, messages, operation_of};

use crate::bars::Bars;
use crate::window::Span;
use run_model::{Answer, Event, Name, ObjectId, Op, Reply, Step};
use std::alloc::AllocError;

/// A granted operation.
#[derive(Drop)]
pub struct Tick {
    /// The number of its event.
    pub number: u64,
    pub action: Name,
    pub object: ObjectId,
    pub operation: Op,
    pub reply: Reply,
}

/// What a guardian sends.
#[derive(Clone, Copy, Debug, PartialEq, Eq)]
pub enum Message {
    Call,
    Prepare,
    VoteYes,
    VoteNo,
    Tell,
}

/// A message from one guardian to another, or to itself.
#[derive(Drop)]
pub struct Arrow {
    /// The number of its event.
    pub number: u64,
    pub message: Message,
    pub from: u32,
    pub to: u32,
    /// The action that is called, voted on or told.
    pub action: Name,
}

/// Adds the operation that the event of this number granted, if it did and the event is shown.
pub(crate) fn add_ticks(
    ticks: &mut Vec<Tick>,
    span: Span,
    number: u64,
    event: &Event,
) -> Result<(), AllocError>
    ensures { OnOk result (map operation_of ticks.new.items ≡ map operation_of ticks.old.items
        ++ (if is_shown span number then performed_by number event.now.step event.now.answer
        else [])) }
{
    if !span.shows(number) {
        return Ok(());
    }
    let (Step::Op(action, object, operation), Answer::Granted(reply)) = (&event.step, &event.answer)
    else {
        return Ok(());
    };
    ticks.push(Tick {
        number,
        action: action.copy()?,
        object: *object,
        operation: operation.copy()?,
        reply: reply.copy()?,
    })?;
    Ok(())
}

/// Adds the messages of the event of this number, if it is shown.
pub(crate) fn add_arrows(
    arrows: &mut Vec<Arrow>,
    span: Span,
    number: u64,
    event: &Event,
    bars: &Bars,
) -> Result<(), AllocError>
    ensures { (past : List Event) → AreBars bars.now past
        → OnOk result (arrows.new.items ≡ arrows.old.items
        ++ (if is_shown span number then messages number event.now past else [])) }
{
    if !span.shows(number) {
        return Ok(());
    }
    match (&event.step, &event.answer) {
        (Step::Call(caller, guardian), Answer::Began(names)) => {
            let Some(called) = names.as_slice().first() else {
                return Ok(());
            };
            let from = bars.home(caller);
            add_arrow(arrows, number, Message::Call, from, *guardian, called)
        }
        (Step::Prepare(guardian, top), Answer::VoteYes) => {
            let home = bars.home(top);
            add_arrow(arrows, number, Message::Prepare, home, *guardian, top)?;
            add_arrow(arrows, number, Message::VoteYes, *guardian, home, top)
        }
        (Step::Prepare(guardian, top), Answer::VoteNo) => {
            let home = bars.home(top);
            add_arrow(arrows, number, Message::Prepare, home, *guardian, top)?;
            add_arrow(arrows, number, Message::VoteNo, *guardian, home, top)
        }
        (Step::Tell(guardian, action), Answer::Done(_)) => {
            let from = bars.home(action);
            add_arrow(arrows, number, Message::Tell, from, *guardian, action)
        }
        _ => Ok(()),
    }
}

fn add_arrow(
    arrows: &mut Vec<Arrow>,
    number: u64,
    message: Message,
    from: u32,
    to: u32,
    action: &Name,
) -> Result<(), AllocError>
    ensures { OnOk result (arrows.new.items
        ≡ arrows.old.items ++ arrow number message from to action.now ∷ []) }
{
    arrows.push(Arrow {
        number,
        message,
        from,
        to,
        action: action.copy()?,
    })?;
    Ok(())
}
