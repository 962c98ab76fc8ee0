//! The heading of a picture: how many guardians and events a run has, and what the shapes stand for.

use crate::bar::Fate;
use crate::layout::Layout;
use crate::marks::Message;
use crate::shape::{Class, Point, Shape};
use std::alloc::{AllocError, Global};

/// Where the keys stand.
const KEYS: u64 = 60;

/// From the top of a key to the foot of its words.
const FOOT: u64 = 11;

/// How high the shape of a key is.
const HEIGHT: u64 = 14;

/// How wide the shape of a key is.
const WIDTH: u64 = 28;

/// How wide the words of keys are, by letter.
const LETTER: u64 = 7;

pub(crate) fn add_heading(
    shapes: &mut Vec<Shape>,
    alloc: Global,
    layout: &Layout,
) -> Result<(), AllocError> {
    let guardians = layout.guardians;
    let count = layout.count;
    let words = format!(in alloc; "A run: guardians {guardians}, events {count}")?;
    shapes.push(Shape::Text(Class::Heading, Point { x: 12, y: 26 }, words))?;
    let mut x = 12;
    for (class, words) in [
        (Class::Bar(Fate::Committed), "committed"),
        (Class::Bar(Fate::Open), "not ended"),
        (Class::Bar(Fate::Aborted), "aborted"),
        (Class::Bar(Fate::Orphan), "orphan"),
        (Class::Gap, "down"),
    ] {
        let corner = Point { x, y: KEYS };
        let tip = String::from_str(alloc, words)?;
        shapes.push(Shape::Rect(class, corner, WIDTH, HEIGHT, tip))?;
        x = add_key(shapes, alloc, x, words)?;
    }
    for (class, words) in [
        (Class::Tick, "operation"),
        (Class::Arrow(Message::Call), "call"),
        (Class::Arrow(Message::Prepare), "prepare"),
        (Class::Arrow(Message::VoteYes), "vote yes"),
        (Class::Arrow(Message::VoteNo), "vote no"),
        (Class::Arrow(Message::Tell), "telling"),
    ] {
        let (from, to) = ends(class, x);
        let tip = String::from_str(alloc, words)?;
        shapes.push(Shape::Line(class, from, to, tip))?;
        x = add_key(shapes, alloc, x, words)?;
    }
    Ok(())
}

/// The ends of the line that stands for a class in its key: a tick is upright.
fn ends(class: Class, x: u64) -> (Point, Point) {
    if class == Class::Tick {
        let middle = x.saturating_add(WIDTH / 2);
        let from = Point {
            x: middle,
            y: KEYS + 2,
        };
        let to = Point {
            x: middle,
            y: KEYS + HEIGHT - 2,
        };
        return (from, to);
    }
    let y = KEYS + HEIGHT / 2;
    let to = Point {
        x: x.saturating_add(WIDTH),
        y,
    };
    (Point { x, y }, to)
}

/// Adds the words of a key, and gives the place of the next.
fn add_key(shapes: &mut Vec<Shape>, alloc: Global, x: u64, words: &str) -> Result<u64, AllocError> {
    let at = Point {
        x: x.saturating_add(WIDTH + 6),
        y: KEYS + FOOT,
    };
    shapes.push(Shape::Text(Class::Key, at, String::from_str(alloc, words)?))?;
    let letters = words.len() as u64;
    Ok(
        at.x.saturating_add(letters.saturating_mul(LETTER))
            .saturating_add(12),
    )
}
