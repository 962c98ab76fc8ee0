//! Where things stand on the sheet, in pixels.

use crate::layout::Layout;
use crate::rows::Rows;
use crate::window::Span;
use std::alloc::{AllocError, Global};

/// How wide the lanes are, if columns need not be narrower or wider than they may.
const LANES_WIDTH: u64 = 4000;

const NARROWEST: u64 = 8;

const WIDEST: u64 = 40;

/// Where lanes begin, right of their names.
const LEFT: u64 = 110;

/// Where the first lane begins, below the heading.
const TOP: u64 = 112;

/// By how much lanes are longer than their columns, at both ends.
const MARGIN: u64 = 4;

/// How wide the sheet is at least, so that the heading has room.
const MIN_WIDTH: u64 = 1060;

pub(crate) const ROW_HEIGHT: u64 = 20;

/// The part of a lane above its rows, with the line for messages.
const LANE_HEAD: u64 = 22;

/// The part of a lane below its rows.
const LANE_FOOT: u64 = 10;

const LANE_DISTANCE: u64 = 8;

/// From the top of a lane to the line for messages.
const SPINE: u64 = 12;

#[derive(Clone, Copy, Debug, PartialEq, Eq)]
pub(crate) struct Lane {
    pub(crate) guardian: u32,
    pub(crate) top: u64,
    pub(crate) height: u64,
}

impl Lane {
    /// Where the line for messages stands.
    pub(crate) fn spine(self) -> u64 {
        self.top.saturating_add(SPINE)
    }

    pub(crate) fn bottom(self) -> u64 {
        self.top.saturating_add(self.height)
    }

    /// Where this row begins.
    pub(crate) fn row(self, row: u64) -> u64 {
        self.top
            .saturating_add(LANE_HEAD)
            .saturating_add(row.saturating_mul(ROW_HEIGHT))
    }
}

#[derive(Drop)]
pub(crate) struct Sheet {
    pub(crate) span: Span,
    /// How wide the column of an event is.
    pub(crate) column: u64,
    pub(crate) lanes: Vec<Lane>,
    pub(crate) width: u64,
    pub(crate) height: u64,
}

impl Sheet {
    pub(crate) fn of(alloc: Global, layout: &Layout, rows: &Rows) -> Result<Sheet, AllocError> {
        let span = layout.span;
        let shown = span.len();
        let column = (LANES_WIDTH / shown.max(1)).clamp(NARROWEST, WIDEST);
        let mut lanes = Vec::new(alloc);
        let mut top = TOP;
        for number in 0..layout.guardians {
            let guardian = number + 1;
            let height = rows
                .height(guardian)
                .saturating_mul(ROW_HEIGHT)
                .saturating_add(LANE_HEAD + LANE_FOOT);
            lanes.push(Lane {
                guardian,
                top,
                height,
            })?;
            top = top.saturating_add(height).saturating_add(LANE_DISTANCE);
        }
        let width = shown
            .saturating_mul(column)
            .saturating_add(LEFT + WIDEST)
            .max(MIN_WIDTH);
        Ok(Sheet {
            span,
            column,
            lanes,
            width,
            height: top,
        })
    }

    /// The lane of the guardian.
    pub(crate) fn lane(&self, guardian: u32) -> Option<Lane> {
        let index = guardian.checked_sub(1)?;
        self.lanes.get(index as usize).copied()
    }

    /// The middle of the event's column.
    pub(crate) fn middle(&self, number: u64) -> u64 {
        number
            .saturating_sub(self.span.first)
            .saturating_mul(self.column)
            .saturating_add(LEFT + self.column / 2)
    }

    pub(crate) fn left(&self) -> u64 {
        LEFT - MARGIN
    }

    pub(crate) fn right(&self) -> u64 {
        self.span
            .len()
            .saturating_mul(self.column)
            .saturating_add(LEFT + MARGIN)
    }

    /// Where what begins at this event begins on the sheet.
    pub(crate) fn from(&self, number: u64) -> u64 {
        if number < self.span.first {
            self.left()
        } else {
            self.middle(number)
        }
    }

    /// Where what ends at this event, or goes on if there is none, ends on the sheet.
    pub(crate) fn until(&self, number: Option<u64>) -> u64 {
        match number {
            Some(number) if number <= self.span.last => self.middle(number),
            _ => self.right(),
        }
    }
}
