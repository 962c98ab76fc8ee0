//! What a picture shows of a run.
ghost use Rattle.std.specs.Prelude.{◌≡◌, [], ◌∷◌, reverse, suc, length, List, IfOk, OnOk};
ghost use Rattle.run_model.specs.declared.history.Event.{Event};
ghost use Rattle.run_model.specs.Visibility.{is_orphan};
ghost use Rattle.picture.specs.Layouts.{AreBars, IsLaidOut, IsLayout};
ghost use Rattle.picture.specs.Losses.{AreStranded, is_doomed};
ghost use Rattle.picture.specs.declared.window.Span.{Span};

use crate::bars::Bars;
use crate::gaps::Gaps;
use crate::losses::Losses;
use crate::marks::{Arrow, Tick, add_arrows, add_ticks};
use crate::window::{Span, Window};
use run_model::{Event, Name, Setup};
use std::alloc::{AllocError, Global};
use std::collections::BTreeSet;

/// What a picture shows of a run: numbers of events and guardians, no drawing. Bars and gaps are
/// those of the whole run, ticks and arrows those of the shown events.
#[derive(Drop)]
pub struct Layout {
    /// How many guardians there are. Each has a lane.
    pub guardians: u32,
    /// How many events the run has.
    pub count: u64,
    pub span: Span,
    pub bars: Bars,
    /// The actions to whose descendants a lost action is visible.
    pub stranded: BTreeSet<Name>,
    pub ticks: Vec<Tick>,
    pub arrows: Vec<Arrow>,
    pub gaps: Gaps,
}

/// The layout of the run of these events, the oldest first, in a window.
pub fn lay_out(
    alloc: Global,
    setup: &Setup,
    events: &[Event],
    window: Window,
) -> Result<Layout, AllocError>
    ensures { IfOk result (λ layout. IsLayout setup.now window layout (reverse events.now)) }
{
    let span = Span::of(window, events.len() as u64);
    let mut losses = Losses::new(alloc);
    let mut layout = Layout::new(alloc, setup.guardians() as u32, events.len() as u64, span);
    for (before, event) in events.iter().enumerate() {
        losses.add(alloc, event, &layout.bars)?;
        layout.add(before as u64 + 1, event)?;
    }
    layout.stranded = losses.stranded(alloc, &layout.bars)?;
    Ok(layout)
}

impl Layout {
    /// Nothing has happened yet.
    fn new(alloc: Global, guardians: u32, count: u64, span: Span) -> Layout
        ensures guardians { result.guardians ≡ guardians }
        ensures count { result.count ≡ count }
        ensures laid_out { IsLaidOut span result [] }
    {
        Layout {
            guardians,
            count,
            span,
            bars: Bars::new(alloc),
            stranded: BTreeSet::new(alloc),
            ticks: Vec::new(alloc),
            arrows: Vec::new(alloc),
            gaps: Gaps::new(alloc),
        }
    }

    /// Adds the event of this number.
    fn add(&mut self, number: u64, event: &Event) -> Result<(), AllocError>
        ensures guardians { self.new.guardians ≡ self.old.guardians }
        ensures count { self.new.count ≡ self.old.count }
        ensures laid_out { (span : Span) (past : List Event) → IsLaidOut span self.old past
            → number ≡ suc (length past)
            → OnOk result (IsLaidOut span self.new (event.now ∷ past)) }
    {
        add_ticks(&mut self.ticks, self.span, number, event)?;
        add_arrows(&mut self.arrows, self.span, number, event, &self.bars)?;
        self.bars.add(number, event)?;
        self.gaps.add(number, &event.step)?;
        Ok(())
    }

    /// Whether the action is an orphan.
    pub fn is_orphan(&self, action: &Name) -> Result<bool, AllocError>
        ensures { (past : List Event) → AreBars self.now.bars past
            → AreStranded self.now.stranded past
            → IfOk result (λ orphan. orphan ≡ is_orphan action.now past) }
    {
        let mut name = action.copy()?;
        while !self.is_doomed(&name) {
            let Some(parent) = name.parent()? else {
                return Ok(false);
            };
            name = parent;
        }
        Ok(true)
    }

    /// Whether the action and all below it are orphans.
    fn is_doomed(&self, action: &Name) -> bool
        ensures { result ≡ is_doomed self.now.bars self.now.stranded action.now }
    {
        self.bars.aborted.contains_key(action) || self.stranded.contains(action)
    }
}
