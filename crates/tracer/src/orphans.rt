//! Orphans: actions under an aborted one, and those to which a lost action of their own tree is visible.
ghost use Rattle.std.specs.Prelude.{◌≡◌, ◌∷◌, reverse, List, IfOk};
ghost use Rattle.std.specs.List.{list_any};
ghost use Rattle.action_names.specs.Names.{Name, ancestors, top_of};
ghost use Rattle.run_model.specs.declared.history.Event.{Event};
ghost use Rattle.run_model.specs.Actions.{home_of, is_aborted};
ghost use Rattle.run_model.specs.Visibility.{has_prepared, is_lost, is_orphan, votes_yes};
ghost use Rattle.tracer.specs.Endings.{AreEndings};
ghost use Rattle.tracer.specs.Losses.{IsStanding, is_seen_loss};

use crate::actions::{ancestors, begins, is_aborted};
use crate::endings::Endings;
use crate::steps::{crashes, is_path};
use run_model::{Answer, Event, History, Name, Step};
use std::alloc::{AllocError, Global};

/// Whether the action is an orphan: whether an ancestor has aborted, or a lost action of its own tree is visible to it.
pub(crate) fn is_orphan(
    alloc: Global,
    history: &History,
    endings: &Endings,
    action: &Name,
) -> Result<bool, AllocError>
    ensures { AreEndings endings.now history.now
        → IfOk result (λ orphan. orphan ≡ is_orphan action.now history.now) }
{
    if is_under_aborted(alloc, history, action)? {
        return Ok(true);
    }
    let mut events = history.events();
    while let Some((event, past)) = events.split_last() {
        if shows_loss(alloc, history, endings, event.answer.names_begun(), action)? {
            return Ok(true);
        }
        events = past;
    }
    Ok(false)
}

/// Whether an ancestor of the action has aborted.
fn is_under_aborted(alloc: Global, history: &History, action: &Name) -> Result<bool, AllocError>
    ensures { IfOk result
        (λ under. under ≡ list_any (λ c. is_aborted c history.now) (ancestors action.now)) }
{
    let names = ancestors(alloc, action)?;
    let aborted = names
        .as_slice()
        .iter()
        .any(|name| is_aborted(history, name));
    Ok(aborted)
}

/// Whether one of the actions is of the other's tree, lost and visible to it.
fn shows_loss(
    alloc: Global,
    history: &History,
    endings: &Endings,
    names: &[Name],
    action: &Name,
) -> Result<bool, AllocError>
    ensures { AreEndings endings.now history.now
        → IfOk result (λ shown. shown ≡ list_any (is_seen_loss action.now history.now) names.now) }
{
    for name in names {
        let same_tree = top_path(name) == top_path(action);
        if same_tree && endings.is_visible(alloc, name, action)? && is_lost(history, name) {
            return Ok(true);
        }
    }
    Ok(false)
}

/// Whether the action is lost: whether its home crashed after the action began and before the home prepared its top
/// action.
fn is_lost(history: &History, action: &Name) -> bool
    ensures { result ≡ is_lost action.now history.now }
{
    let events = history.events();
    let mut standing = Standing {
        begun: false,
        home: 0,
        prepared: false,
        lost: false,
    };
    for (before, event) in events.iter().enumerate() {
        standing = standing.after(event, &events[..before + 1], action);
    }
    standing.lost
}

/// How an action stands: whether it was begun and where, whether its home prepared its top action, and whether it is
/// lost.
#[derive(Clone, Copy)]
struct Standing {
    begun: bool,
    home: u32,
    prepared: bool,
    lost: bool,
}

impl Standing {
    /// What is so after one event more, with which the events so far end.
    fn after(self, event: &Event, so_far: &[Event], action: &Name) -> Standing
        ensures { (past : List Event) → reverse so_far.now ≡ event.now ∷ past
            → IsStanding self action.now past → IsStanding result action.now (event.now ∷ past) }
    {
        let lost = self.is_lost_after(event);
        let top = top_path(action);
        if !begins(event, action) {
            let prepared = self.prepared || votes_yes(event, self.home, top);
            return Standing {
                prepared,
                lost,
                ..self
            };
        }
        let home = home_among(so_far, action);
        Standing {
            begun: true,
            home,
            prepared: has_prepared(so_far, home, top),
            lost,
        }
    }

    /// Whether the action is lost after one event more.
    fn is_lost_after(self, event: &Event) -> bool
        ensures { (b : Name) (past : List Event) → IsStanding self b past
            → result ≡ is_lost b (event.now ∷ past) }
    {
        self.lost || self.begun && crashes(&event.step, self.home) && !self.prepared
    }
}

/// The home of the action after these events alone.
fn home_among<'a>(events: &'a [Event], action: &'a Name) -> u32
    ensures { result ≡ home_of action.now (reverse events.now) }
{
    let mut events = events;
    let mut sought = action;
    while let Some((event, past)) = events.split_last() {
        if begins(event, sought) {
            match &event.step {
                Step::Top(guardian) | Step::Call(_, guardian) => return *guardian,
                Step::NestedTop(maker) | Step::Arms(maker, _) => sought = maker,
                _ => return 0,
            }
        }
        events = past;
    }
    0
}

/// Whether the guardian prepared the top action with this path in these events.
fn has_prepared(events: &[Event], guardian: u32, top: &[u32]) -> bool
    ensures { result ≡ has_prepared guardian top.now (reverse events.now) }
{
    events
        .iter()
        .rev()
        .any(|event| votes_yes(event, guardian, top))
}

/// Whether the event is the guardian's yes on the top action with this path.
fn votes_yes(event: &Event, guardian: u32, top: &[u32]) -> bool
    ensures { result ≡ votes_yes event.now.step event.now.answer guardian top.now }
{
    match (&event.step, &event.answer) {
        (Step::Prepare(at, name), Answer::VoteYes) => *at == guardian && is_path(name, top),
        _ => false,
    }
}

/// The path of the top action of the tree.
fn top_path(name: &Name) -> &[u32]
    ensures { result.now ≡ top_of name.now }
{
    &name.components()[..1]
}
