//! Reading one line at a time, and never more of one than a step can have.

ghost use Rattle.std.specs.Prelude.{◌≡◌, ◌≤◌, ◌+◌, length, IfErr, IfOk};
ghost use Rattle.argus_engine.specs.Reading.{IsFront, IsOfReader, ReadsLine, TakesSome};

use crate::engine::Fault;
use memchr::memchr;
use run_model::MAX_LINE;
use std::io::{BufRead, ErrorKind};

/// What stands next.
#[derive(Clone, Copy, Drop)]
pub(crate) enum Line {
    /// A line with its line feed.
    Whole,
    /// More bytes than a line has, or a last line without its line feed.
    Bad,
    /// Nothing.
    Missing,
}

/// What was met in taking bytes of a line.
#[derive(Clone, Copy, Drop)]
pub(crate) enum Met {
    /// The line feed.
    LineFeed,
    /// Nothing that ends the line.
    More,
    /// The end of the input.
    End,
}

/// What of the bytes that are ready belongs to a line.
#[derive(Clone, Copy, Drop)]
pub(crate) struct Front {
    /// How many of them.
    pub(crate) count: usize,
    /// How many are taken, with the line feed if it is met.
    pub(crate) taken: usize,
    pub(crate) met: Met,
}

/// Reads a line without its line feed, in place of what the vector held. Where the line is too long, one byte more than
/// it may have is read.
#[tactic(auto, using(crate::proofs::Bytes::nothing_was, crate::proofs::Bytes::at_end_gives, crate::proofs::Bytes::cut_is_no_step, crate::proofs::Bytes::long_is_no_step))]
pub(crate) fn read_line<R: BufRead>(reader: &mut R, line: &mut Vec<u8>) -> Result<Line, Fault>
    ensures found { IfOk result (λ found.
        ReadsLine (R.remaining reader.old) (R.remaining reader.new) line.new.items found) }
    ensures fault { IfErr result IsOfReader }
{
    line.clear();
    for _ in 0..u64::MAX {
        let room = MAX_LINE + 1 - line.len();
        if room == 0 {
            return Ok(Line::Bad);
        }
        match take_some(reader, room, line)? {
            Met::LineFeed => return Ok(Line::Whole),
            Met::More => (),
            Met::End if line.is_empty() => return Ok(Line::Missing),
            Met::End => return Ok(Line::Bad),
        }
    }
    Err(Fault::Input)
}

/// Takes what the reader has ready of a line, so many bytes at most, and appends it: up to the line feed, which is
/// taken too and not appended. Nothing is taken where a signal interrupts.
fn take_some<R: BufRead>(reader: &mut R, room: usize, line: &mut Vec<u8>) -> Result<Met, Fault>
    requires { 1 ≤ room }
    ensures taken { IfOk result (TakesSome (R.remaining reader.old) (R.remaining reader.new)
        line.old.items line.new.items) }
    ensures room { IfOk result (λ met. length line.new.items ≤ length line.old.items + room) }
    ensures fault { IfErr result IsOfReader }
{
    let ready = match reader.fill_buf() {
        Ok(ready) => ready,
        Err(error) if error.kind() == ErrorKind::Interrupted => return Ok(Met::More),
        Err(_) => return Err(Fault::Input),
    };
    let front = front_of(ready, room);
    line.extend_from_slice(&ready[..front.count])?;
    reader.consume(front.taken);
    Ok(front.met)
}

/// What of these bytes, which are what is ready, belongs to the line, of which there is room for so many.
pub(crate) fn front_of(ready: &[u8], room: usize) -> Front
    requires { 1 ≤ room }
    ensures front { IsFront ready.now result }
    ensures room { result.count ≤ room }
{
    let within = &ready[..room.min(ready.len())];
    match memchr(b'\n', within) {
        Some(at) => Front {
            count: at,
            taken: at + 1,
            met: Met::LineFeed,
        },
        None if ready.is_empty() => Front {
            count: 0,
            taken: 0,
            met: Met::End,
        },
        None => Front {
            count: within.len(),
            taken: within.len(),
            met: Met::More,
        },
    }
}
