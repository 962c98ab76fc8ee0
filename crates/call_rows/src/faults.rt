//! Faults of a stable store, and their texts.
use rows::{Row, RowFault};
use stable_store::StoreFault;

/// `fault NAME`: its text.
pub(crate) fn answer(row: &Row<'_>, answer: &mut String) -> Result<(), RowFault> {
    match row.call {
        "fault" => Ok(write!(answer, "{}", read_fault(row.given)?)?),
        _ => Err(RowFault::Unread),
    }
}

fn read_fault(name: &str) -> Result<StoreFault, RowFault> {
    match name {
        "Memory" => Ok(StoreFault::Memory),
        "Failed" => Ok(StoreFault::Failed),
        "NotOurs" => Ok(StoreFault::NotOurs),
        _ => Err(RowFault::Unread),
    }
}
