//! Readers and writers that go on in pieces, and may fail.
use crate::text::escape;
use argus_engine::{Ended, Fault};
use rows::RowFault;
use std::alloc::Global;
use std::io::{self, ErrorKind, Read, Write};
use std::str;

/// A reader that gives so many bytes a call, and fails after so many calls.
#[derive(Drop)]
pub(crate) struct Reader<'a> {
    bytes: &'a [u8],
    width: usize,
    calls_left: usize,
}

impl<'a> Reader<'a> {
    /// The reader of a word: `whole`; or `slow:CALLS`, which gives 7 bytes a call.
    pub(crate) fn of_word(word: &str, bytes: &'a [u8]) -> Result<Reader<'a>, RowFault> {
        let (width, calls_left) = match word.split_once(':').unwrap_or((word, "")) {
            (kind, _) if kind == "whole" => (usize::MAX, usize::MAX),
            (kind, calls) if kind == "slow" => (7, number(calls)?),
            _ => return Err(RowFault::Unread),
        };
        Ok(Reader {
            bytes,
            width,
            calls_left,
        })
    }
}

impl Read for Reader<'_> {
    fn read(&mut self, buf: &mut [u8]) -> io::Result<usize> {
        if self.calls_left == 0 {
            return Err(io::Error::from(ErrorKind::Other));
        }
        self.calls_left -= 1;
        let n = self.bytes.len().min(buf.len()).min(self.width);
        buf[..n].copy_from_slice(&self.bytes[..n]);
        self.bytes = &self.bytes[n..];
        Ok(n)
    }
}

/// A writer that takes so many bytes a call, and fails after so many calls.
#[derive(Drop)]
pub(crate) struct Writer {
    taken: Vec<u8>,
    width: usize,
    calls_left: usize,
    /// Whether a flush fails too if no call is left.
    is_flushed_by_call: bool,
    /// Whether memory was refused to it.
    is_refused: bool,
}

impl Writer {
    /// The writer of a word: `wide`; `narrow:CALLS`, which takes a byte a call; or `full:CALLS`, which takes 5 bytes a
    /// call, and whose flush fails if no call is left.
    pub(crate) fn of_word(alloc: Global, word: &str) -> Result<Writer, RowFault> {
        let (kind, calls) = word.split_once(':').unwrap_or((word, ""));
        match kind {
            "wide" => Ok(Writer::new(alloc, usize::MAX, usize::MAX)),
            "narrow" => Ok(Writer::new(alloc, 1, number(calls)?)),
            "full" => {
                let mut writer = Writer::new(alloc, 5, number(calls)?);
                writer.is_flushed_by_call = true;
                Ok(writer)
            }
            _ => Err(RowFault::Unread),
        }
    }

    fn new(alloc: Global, width: usize, calls_left: usize) -> Writer {
        Writer {
            taken: Vec::new(alloc),
            width,
            calls_left,
            is_flushed_by_call: false,
            is_refused: false,
        }
    }

    /// Writes how a call that wrote here has ended, and what it wrote. If it wanted memory, what it wrote must be a
    /// beginning of what is wanted.
    pub(crate) fn tell(
        &self,
        alloc: Global,
        ended: Result<Ended, Fault>,
        wanted: &str,
        answer: &mut String,
    ) -> Result<(), RowFault> {
        match self.push_end(ended, answer) {
            Err(RowFault::Memory) if !self.has_begun(alloc, wanted)? => self.push(
                "no beginning",
                answer,
            ),
            told => told,
        }
    }

    /// Writes how a call that wrote here has ended, and what it wrote.
    pub(crate) fn push_end(
        &self,
        ended: Result<Ended, Fault>,
        answer: &mut String,
    ) -> Result<(), RowFault> {
        match ended {
            Ok(Ended::Done) => self.push("done", answer),
            Ok(Ended::Stopped) => self.push("stopped", answer),
            Err(Fault::Memory) => Err(RowFault::Memory),
            Err(Fault::Input | Fault::Output) if self.is_refused => Err(RowFault::Memory),
            Err(Fault::Output) => self.push("fault output", answer),
            Err(Fault::Input) => self.push("fault input", answer),
            Err(Fault::Store) => self.push("fault store", answer),
            Err(Fault::Stamps) => self.push("fault stamps", answer),
            Err(Fault::Receipts) => self.push("fault receipts", answer),
            Err(Fault::Open) => self.push("fault open", answer),
            Err(Fault::Time) => self.push("fault time", answer),
        }
    }

    /// Writes this, and what was written.
    pub(crate) fn push(&self, how: &str, answer: &mut String) -> Result<(), RowFault> {
        answer.push_str(how)?;
        if !self.taken.is_empty() {
            answer.push_str(": ")?;
            escape(self.written()?, answer)?;
        }
        Ok(())
    }

    /// Whether memory was refused to it.
    pub(crate) fn was_refused(&self) -> bool {
        self.is_refused
    }

    /// What was written.
    pub(crate) fn into_taken(self) -> Vec<u8> {
        self.taken
    }

    /// Whether what was written is a beginning of what the wanted answer says.
    fn has_begun(&self, alloc: Global, wanted: &str) -> Result<bool, RowFault> {
        let (_, whole) = wanted.split_once(": ").unwrap_or((wanted, ""));
        let mut begun = String::new(alloc);
        escape(self.written()?, &mut begun)?;
        Ok(whole.as_bytes().starts_with(begun.as_bytes()))
    }

    fn written(&self) -> Result<&str, RowFault> {
        str::from_utf8(self.taken.as_slice()).map_err(|_| RowFault::Unread)
    }
}

impl Write for Writer {
    fn write(&mut self, buf: &[u8]) -> io::Result<usize> {
        if self.calls_left == 0 {
            return Err(io::Error::from(ErrorKind::Other));
        }
        self.calls_left -= 1;
        let n = buf.len().min(self.width);
        if self.taken.extend_from_slice(&buf[..n]).is_err() {
            self.is_refused = true;
            return Err(io::Error::from(ErrorKind::OutOfMemory));
        }
        Ok(n)
    }

    fn flush(&mut self) -> io::Result<()> {
        if self.is_flushed_by_call && self.calls_left == 0 {
            return Err(io::Error::from(ErrorKind::Other));
        }
        Ok(())
    }
}

fn number(word: &str) -> Result<usize, RowFault> {
    word.parse().map_err(|_| RowFault::Unread)
}
