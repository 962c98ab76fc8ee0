//! The shapes of what a layout has.
ghost use Rattle.std.specs.Prelude.{◌≤◌};

use crate::bar::{Bar, Fate};
use crate::bars::Begun;
use crate::gaps::Gap;
use crate::layout::Layout;
use crate::marks::{Arrow, Message, Tick};
use crate::rows::Rows;
use crate::shape::{Class, Point, Shape};
use crate::sheet::{Lane, ROW_HEIGHT, Sheet};
use itoa::Buffer;
use run_model::Name;
use run_model::text::{append_reply, append_request};
use std::alloc::{AllocError, Global};

/// From the top of a row to the middle of its bar.
const HALF_BAR: u64 = 8;

/// By how much a bar is lower than its rows.
const BAR_GAP: u64 = 4;

/// How wide a letter is at most.
const LETTER: u64 = 7;

/// The distances between numbers on the axis, the first that leaves room is taken.
const DISTANCES: [u64; 6] = [1, 2, 5, 10, 20, 50];

/// How much room a number on the axis needs.
const NUMBER_WIDTH: u64 = 36;

/// Where the numbers of events stand.
const AXIS: u64 = 102;

/// The shapes of a layout, those behind others first.
pub(crate) fn shapes(
    alloc: Global,
    layout: &Layout,
    bars: &[Bar],
    rows: &Rows,
    sheet: &Sheet,
) -> Result<Vec<Shape>, AllocError> {
    let mut shapes = Vec::new(alloc);
    add_axis(&mut shapes, alloc, sheet)?;
    for lane in &sheet.lanes {
        add_lane(&mut shapes, alloc, sheet, *lane)?;
    }
    for bar in bars {
        add_bar(&mut shapes, alloc, sheet, rows, bar)?;
    }
    for gap in &layout.gaps.ended {
        add_gap(
            &mut shapes,
            alloc,
            sheet,
            gap.guardian,
            gap.crash,
            Some(gap.recovery),
        )?;
    }
    for (guardian, crash) in layout.gaps.down.iter() {
        add_gap(&mut shapes, alloc, sheet, *guardian, *crash, None)?;
    }
    for tick in &layout.ticks {
        add_tick(&mut shapes, alloc, layout, sheet, rows, tick)?;
    }
    for bar in bars {
        add_name(&mut shapes, alloc, sheet, rows, bar)?;
    }
    for arrow in &layout.arrows {
        add_arrow(&mut shapes, alloc, layout, sheet, rows, arrow)?;
    }
    Ok(shapes)
}

/// Adds the numbers of events, as many as there is room for.
fn add_axis(shapes: &mut Vec<Shape>, alloc: Global, sheet: &Sheet) -> Result<(), AllocError> {
    let distance = distance_for(sheet.column);
    for index in 0..sheet.span.len() {
        let number = sheet.span.first.saturating_add(index);
        if index == 0 || number % distance == 0 {
            let at = Point {
                x: sheet.middle(number),
                y: AXIS,
            };
            shapes.push(Shape::Text(Class::Axis, at, format!(in alloc; "{number}")?))?;
        }
    }
    Ok(())
}

fn distance_for(column: u64) -> u64
    ensures { 1 ≤ result }
{
    for distance in DISTANCES {
        if column.saturating_mul(distance) >= NUMBER_WIDTH {
            return distance.max(1);
        }
    }
    100
}

/// Adds a lane, its guardian's name, and the line for messages.
fn add_lane(
    shapes: &mut Vec<Shape>,
    alloc: Global,
    sheet: &Sheet,
    lane: Lane,
) -> Result<(), AllocError> {
    let guardian = lane.guardian;
    let corner = Point {
        x: sheet.left(),
        y: lane.top,
    };
    let width = sheet.right().saturating_sub(sheet.left());
    let tip = format!(in alloc; "guardian {guardian}")?;
    shapes.push(Shape::Rect(Class::Lane, corner, width, lane.height, tip))?;
    let at = Point {
        x: 12,
        y: lane.spine().saturating_add(4),
    };
    let name = format!(in alloc; "guardian {guardian}")?;
    shapes.push(Shape::Text(Class::Guardian, at, name))?;
    let from = Point {
        x: sheet.left(),
        y: lane.spine(),
    };
    let to = Point {
        x: sheet.right(),
        y: lane.spine(),
    };
    let tip = format!(in alloc; "messages of guardian {guardian}")?;
    shapes.push(Shape::Line(Class::Spine, from, to, tip))?;
    Ok(())
}

/// Adds the time in which the guardian was down, if it is shown.
fn add_gap(
    shapes: &mut Vec<Shape>,
    alloc: Global,
    sheet: &Sheet,
    guardian: u32,
    crash: u64,
    recovery: Option<u64>,
) -> Result<(), AllocError> {
    let span = sheet.span;
    let is_before = matches!(recovery, Some(recovery) if recovery < span.first);
    let Some(lane) = sheet.lane(guardian) else {
        return Ok(());
    };
    if is_before || crash > span.last {
        return Ok(());
    }
    let from = sheet.from(crash);
    let width = sheet.until(recovery).saturating_sub(from);
    let mut tip = format!(in alloc; "guardian {guardian} is down from event {crash}")?;
    if let Some(recovery) = recovery {
        append_number(" to event ", recovery, &mut tip)?;
    }
    let corner = Point {
        x: from,
        y: lane.top,
    };
    shapes.push(Shape::Rect(Class::Gap, corner, width, lane.height, tip))?;
    let at = Point {
        x: from.saturating_add(BAR_GAP),
        y: lane.bottom().saturating_sub(BAR_GAP),
    };
    let words = String::from_str(alloc, "down")?;
    add_label(shapes, at, words, width)
}

/// Adds the bar of an action, and a line to the end of the action.
fn add_bar(
    shapes: &mut Vec<Shape>,
    alloc: Global,
    sheet: &Sheet,
    rows: &Rows,
    bar: &Bar,
) -> Result<(), AllocError> {
    let Some(corner) = corner_of(sheet, rows, bar) else {
        return Ok(());
    };
    let to = sheet.until(bar.end());
    let width = width_of(sheet, bar);
    let tip = bar_tip(alloc, bar)?;
    shapes.push(Shape::Rect(
        Class::Bar(bar.fate),
        corner,
        width,
        bar_height(rows, bar),
        tip,
    ))?;
    let end = Point {
        x: to,
        y: corner.y.saturating_add(HALF_BAR),
    };
    add_tail(shapes, alloc, sheet, bar, end)
}

/// Adds the name of an action to its bar.
fn add_name(
    shapes: &mut Vec<Shape>,
    alloc: Global,
    sheet: &Sheet,
    rows: &Rows,
    bar: &Bar,
) -> Result<(), AllocError> {
    let Some(corner) = corner_of(sheet, rows, bar) else {
        return Ok(());
    };
    let at = Point {
        x: corner.x.saturating_add(BAR_GAP),
        y: corner.y.saturating_add(BAR_GAP + HALF_BAR),
    };
    add_label(shapes, at, bar_label(alloc, bar)?, width_of(sheet, bar))
}

/// The upper left corner of a bar.
fn corner_of(sheet: &Sheet, rows: &Rows, bar: &Bar) -> Option<Point> {
    let lane = sheet.lane(bar.begun.home)?;
    let place = rows.places.get(&bar.name)?;
    Some(Point {
        x: sheet.from(bar.begun.number),
        y: lane.row(place.row),
    })
}

fn width_of(sheet: &Sheet, bar: &Bar) -> u64 {
    let from = sheet.from(bar.begun.number);
    sheet.until(bar.end()).saturating_sub(from).max(BAR_GAP)
}

fn bar_height(rows: &Rows, bar: &Bar) -> u64 {
    let height = match rows.places.get(&bar.name) {
        Some(place) => place.height,
        None => 1,
    };
    height.saturating_mul(ROW_HEIGHT).saturating_sub(BAR_GAP)
}

/// Adds the line from the end of a bar to the end of its action.
fn add_tail(
    shapes: &mut Vec<Shape>,
    alloc: Global,
    sheet: &Sheet,
    bar: &Bar,
    from: Point,
) -> Result<(), AllocError> {
    let x = sheet.until(bar.ended());
    if bar.end().is_some() && x > from.x {
        let to = Point { x, y: from.y };
        shapes.push(Shape::Line(Class::Tail(bar.fate), from, to, bar_tip(alloc, bar)?))?;
    }
    Ok(())
}

/// Adds the words, if there is room for them.
fn add_label(
    shapes: &mut Vec<Shape>,
    at: Point,
    words: String,
    width: u64,
) -> Result<(), AllocError> {
    let letters = words.as_str().len() as u64;
    if letters.saturating_add(1).saturating_mul(LETTER) <= width {
        shapes.push(Shape::Text(Class::Label, at, words))?;
    }
    Ok(())
}

fn bar_label(alloc: Global, bar: &Bar) -> Result<String, AllocError> {
    let mut label = String::new(alloc);
    bar.name.write_to(&mut label)?;
    label.push_str(match bar.fate {
        Fate::Open | Fate::Committed => "",
        Fate::Aborted => " aborted",
        Fate::Orphan => " orphan",
    })?;
    Ok(label)
}

fn bar_tip(alloc: Global, bar: &Bar) -> Result<String, AllocError> {
    let Begun { home, number } = bar.begun;
    let mut tip = String::new(alloc);
    bar.name.write_to(&mut tip)?;
    append_number(" at guardian ", home as u64, &mut tip)?;
    append_number(": begun at event ", number, &mut tip)?;
    append_event(", closed at event ", bar.closed, &mut tip)?;
    append_event(", committed at event ", bar.committed, &mut tip)?;
    append_event(", aborted at event ", bar.aborted, &mut tip)?;
    if bar.fate == Fate::Orphan {
        tip.push_str(", orphan")?;
    }
    Ok(tip)
}

/// Adds an operation to the bar of its action.
fn add_tick(
    shapes: &mut Vec<Shape>,
    alloc: Global,
    layout: &Layout,
    sheet: &Sheet,
    rows: &Rows,
    tick: &Tick,
) -> Result<(), AllocError> {
    let Some(top) = top_of(layout, sheet, rows, &tick.action) else {
        return Ok(());
    };
    let x = sheet.middle(tick.number);
    let from = Point { x, y: top };
    let to = Point {
        x,
        y: top.saturating_add(2 * HALF_BAR),
    };
    shapes.push(Shape::Line(Class::Tick, from, to, tick_tip(alloc, tick)?))?;
    Ok(())
}

fn tick_tip(alloc: Global, tick: &Tick) -> Result<String, AllocError> {
    let mut tip = String::new(alloc);
    append_number("event ", tick.number, &mut tip)?;
    tip.push_str(": ")?;
    tick.action.write_to(&mut tip)?;
    append_request(tick.object, &tick.operation, &mut tip)?;
    tip.push_str(" -> ")?;
    append_reply(&tick.reply, &mut tip)?;
    Ok(tip)
}

/// Adds a message: an arrow between two lanes, or a dot in one.
fn add_arrow(
    shapes: &mut Vec<Shape>,
    alloc: Global,
    layout: &Layout,
    sheet: &Sheet,
    rows: &Rows,
    arrow: &Arrow,
) -> Result<(), AllocError> {
    let (Some(lane), Some(other)) = (sheet.lane(arrow.from), sheet.lane(arrow.to)) else {
        return Ok(());
    };
    let x = arrow_place(sheet, arrow);
    let tip = arrow_tip(alloc, arrow)?;
    if arrow.from == arrow.to {
        let at = Point { x, y: lane.spine() };
        shapes.push(Shape::Dot(Class::Own(arrow.message), at, tip))?;
        return Ok(());
    }
    let mut from = Point { x, y: lane.spine() };
    let mut to = Point {
        x,
        y: other.spine(),
    };
    if arrow.message == Message::Call {
        from.y = caller_top(layout, sheet, rows, &arrow.action)?.unwrap_or(from.y);
        to.y = top_of(layout, sheet, rows, &arrow.action).unwrap_or(to.y);
    }
    shapes.push(Shape::Line(Class::Arrow(arrow.message), from, to, tip))?;
    Ok(())
}

/// A prepare stands left of the middle of its column, and the vote right of it.
fn arrow_place(sheet: &Sheet, arrow: &Arrow) -> u64 {
    let middle = sheet.middle(arrow.number);
    let aside = sheet.column / 5;
    match arrow.message {
        Message::Prepare => middle.saturating_sub(aside),
        Message::VoteYes | Message::VoteNo => middle.saturating_add(aside),
        Message::Call | Message::Tell => middle,
    }
}

fn arrow_tip(alloc: Global, arrow: &Arrow) -> Result<String, AllocError> {
    let mut tip = String::new(alloc);
    append_number("event ", arrow.number, &mut tip)?;
    tip.push_str(match arrow.message {
        Message::Call => ": call of ",
        Message::Prepare => ": prepare of ",
        Message::VoteYes => ": vote yes on ",
        Message::VoteNo => ": vote no on ",
        Message::Tell => ": telling of ",
    })?;
    arrow.action.write_to(&mut tip)?;
    append_number(", guardian ", arrow.from as u64, &mut tip)?;
    append_number(" to guardian ", arrow.to as u64, &mut tip)?;
    Ok(tip)
}

/// Where the bar of the caller stands, if it is shown.
fn caller_top(
    layout: &Layout,
    sheet: &Sheet,
    rows: &Rows,
    called: &Name,
) -> Result<Option<u64>, AllocError> {
    Ok(match called.parent()? {
        Some(caller) => top_of(layout, sheet, rows, &caller),
        None => None,
    })
}

/// Where the bar of the action stands, if it is shown.
fn top_of(layout: &Layout, sheet: &Sheet, rows: &Rows, action: &Name) -> Option<u64> {
    let place = rows.places.get(action)?;
    let lane = sheet.lane(layout.bars.home(action))?;
    Some(lane.row(place.row))
}

fn append_event(words: &str, number: Option<u64>, text: &mut String) -> Result<(), AllocError> {
    match number {
        Some(number) => append_number(words, number, text),
        None => Ok(()),
    }
}

fn append_number(words: &str, number: u64, text: &mut String) -> Result<(), AllocError> {
    text.push_str(words)?;
    text.push_str(Buffer::new().format(number))
}
