//! The bars of which a part is shown.

use crate::bars::Begun;
use crate::layout::Layout;
use crate::window::Span;
use run_model::Name;
use std::alloc::{AllocError, Global};

/// How an action ended so far.
#[derive(Clone, Copy, Debug, PartialEq, Eq)]
pub(crate) enum Fate {
    Open,
    Committed,
    Aborted,
    /// It has not aborted itself, but an ancestor has, or a lost action is visible to it.
    Orphan,
}

/// An action with the numbers of its events.
#[derive(Drop)]
pub(crate) struct Bar {
    pub(crate) name: Name,
    pub(crate) begun: Begun,
    pub(crate) closed: Option<u64>,
    pub(crate) committed: Option<u64>,
    pub(crate) aborted: Option<u64>,
    pub(crate) fate: Fate,
}

impl Bar {
    /// The event that closed or aborted the action, the earlier one if there are two.
    pub(crate) fn end(&self) -> Option<u64> {
        match (self.closed, self.aborted) {
            (Some(closed), Some(aborted)) => Some(closed.min(aborted)),
            (Some(closed), None) => Some(closed),
            (None, aborted) => aborted,
        }
    }

    /// The event that ended the action.
    pub(crate) fn ended(&self) -> Option<u64> {
        self.aborted.or(self.committed)
    }

    /// The last event at which the bar or its tail is drawn. With `None` it is drawn up to the margin.
    pub(crate) fn last(&self) -> Option<u64> {
        match (self.end(), self.ended()) {
            (Some(end), Some(ended)) => Some(end.max(ended)),
            _ => None,
        }
    }
}

/// The bars of which a part is shown, by name: a parent comes before its children.
pub(crate) fn shown_bars(alloc: Global, layout: &Layout) -> Result<Vec<Bar>, AllocError> {
    let mut bars = Vec::new(alloc);
    for (name, begun) in layout.bars.begun.iter() {
        let bar = bar_of(layout, name, *begun)?;
        if is_shown(layout.span, &bar) && has_lane(layout, bar.begun.home) {
            bars.push(bar)?;
        }
    }
    Ok(bars)
}

fn bar_of(layout: &Layout, name: &Name, begun: Begun) -> Result<Bar, AllocError> {
    let closed = layout.bars.closed.get(name).copied();
    let committed = layout.bars.committed.get(name).copied();
    let aborted = layout.bars.aborted.get(name).copied();
    let fate = match (aborted, committed) {
        (Some(_), _) => Fate::Aborted,
        _ if layout.is_orphan(name)? => Fate::Orphan,
        (None, Some(_)) => Fate::Committed,
        (None, None) => Fate::Open,
    };
    Ok(Bar {
        name: name.copy()?,
        begun,
        closed,
        committed,
        aborted,
        fate,
    })
}

fn is_shown(span: Span, bar: &Bar) -> bool {
    let goes_on = match bar.end() {
        Some(end) => end >= span.first,
        None => true,
    };
    goes_on && bar.begun.number <= span.last && span.first <= span.last
}

fn has_lane(layout: &Layout, guardian: u32) -> bool {
    guardian >= 1 && guardian <= layout.guardians
}
