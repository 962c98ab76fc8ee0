//! Traces that are read, and written again.
use crate::reading;
use rows::RowFault;
use std::alloc::Global;
use traces::{Trace, TraceFault};

/// `trace BYTES`: the text of the trace that the bytes are, with `|` for each line feed, or the fault.
pub(crate) fn read(alloc: Global, text: &str, answer: &mut String) -> Result<(), RowFault> {
    let bytes = reading::bytes(alloc, text)?;
    match Trace::read(alloc, bytes.as_slice()) {
        Ok(trace) => write_lines(trace.text(alloc)?.as_str(), answer),
        Err(TraceFault::Memory) => Err(RowFault::Memory),
        Err(fault) => Ok(write!(answer, "{fault}")?),
    }
}

fn write_lines(text: &str, answer: &mut String) -> Result<(), RowFault> {
    for line in text.lines() {
        answer.push_str(line)?;
        answer.push('|')?;
    }
    Ok(())
}
