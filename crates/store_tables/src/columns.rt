//! What a column of a row has.
ghost use Rattle.std.specs.Prelude.{◌≡◌, ◌≢◌, ℕ, IfErr, IfOk, IsErrOf};
ghost use Rattle.sqlite.specs.Order.{column};
ghost use Rattle.sqlite.specs.declared.error.Error.TheVariants.{SqliteFailure};
ghost use Rattle.sqlite.specs.declared.error.ErrorCode.TheVariants.{OutOfMemory};
ghost use Rattle.atomic_types.specs.declared.part.Part.{Part as Spec};
ghost use Rattle.atomic_types.specs.declared.part.Part.TheVariants.{Delta};
ghost use Rattle.stable_store.specs.declared.fault.StoreFault.TheVariants.{Failed, NotOurs};
ghost use Rattle.store_tables.specs.Shown.{IsNumber, IsText, IsAddedBy};
ghost use Rattle.store_tables.specs.Spellings.{Spells};
ghost use Rattle.store_tables.specs.Unread.{unread_by};

use crate::part_from_text;
use atomic_types::Part;
use sqlite::{Error, ErrorCode, Row};
use stable_store::StoreFault;
use std::alloc::Global;
use values::ValueFault;

/// How a column spells parts.
#[derive(Clone, Copy, Debug, PartialEq, Eq)]
pub(crate) enum Spelling {
    /// Values and deltas, each by its text.
    Text,
    /// Values, each by its text.
    ValueText,
    /// Deltas, each as a number.
    AddedBy,
}

/// The fault where a column does not read as what it should be.
pub(crate) fn unread(error: Error) -> StoreFault
    ensures fault { result ≡ unread_by error }
    ensures told { result ≡ NotOurs → error ≢ SqliteFailure OutOfMemory }
{
    match error {
        Error::SqliteFailure(ErrorCode::OutOfMemory) => StoreFault::Memory,
        _ => StoreFault::NotOurs,
    }
}

/// The number of a top action, a guardian or an object in a column, or `NotOurs` where it is not from 1 to 4294967295.
pub(crate) fn number_in(row: &Row, at: usize) -> Result<u32, StoreFault>
    ensures number { IfOk result (λ n. IsNumber (column row.now at) n) }
    ensures told { IsErrOf result NotOurs → (n : ℕ) → ¬ IsNumber (column row.now at) n }
    ensures ours { IfErr result (λ f. f ≢ Failed) }
{
    match row.get::<u32>(at) {
        Ok(0) => Err(StoreFault::NotOurs),
        Ok(n) => Ok(n),
        Err(error) => Err(unread(error)),
    }
}

/// The part in a column, or `NotOurs` where its text is none in its one spelling.
pub(crate) fn text_part(alloc: Global, row: &Row, at: usize) -> Result<Part, StoreFault>
    ensures part { IfOk result (λ part. IsText (column row.now at) part) }
    ensures told { IsErrOf result NotOurs → (part : Spec) → ¬ IsText (column row.now at) part }
    ensures ours { IfErr result (λ f. f ≢ Failed) }
{
    let text = match row.get::<String>(at) {
        Ok(text) => text,
        Err(error) => return Err(unread(error)),
    };
    match part_from_text(alloc, text.as_str()) {
        Ok(part) => Ok(part),
        Err(ValueFault::Memory) => Err(StoreFault::Memory),
        Err(ValueFault::Unfit) => Err(StoreFault::NotOurs),
    }
}

/// The delta in a column, or `NotOurs` where it is no integer.
fn added_part(row: &Row, at: usize) -> Result<Part, StoreFault>
    ensures part { IfOk result (λ part. IsAddedBy (column row.now at) part) }
    ensures told { IsErrOf result NotOurs → (part : Spec) → ¬ IsAddedBy (column row.now at) part }
    ensures ours { IfErr result (λ f. f ≢ Failed) }
{
    match row.get::<i64>(at) {
        Ok(by) => Ok(Part::Delta(by)),
        Err(error) => Err(unread(error)),
    }
}

/// The part in a column that spells parts so, or `NotOurs` where it has none.
pub(crate) fn spelled_part(
    alloc: Global,
    row: &Row,
    at: usize,
    spelling: Spelling,
) -> Result<Part, StoreFault>
    ensures part { IfOk result (λ part. Spells spelling (column row.now at) part) }
    ensures told { IsErrOf result NotOurs → (part : Spec)
        → ¬ Spells spelling (column row.now at) part }
    ensures ours { IfErr result (λ f. f ≢ Failed) }
{
    match spelling {
        Spelling::Text => text_part(alloc, row, at),
        Spelling::AddedBy => added_part(row, at),
        Spelling::ValueText => match text_part(alloc, row, at)? {
            Part::Value(content) => Ok(Part::Value(content)),
            Part::Delta(_) => Err(StoreFault::NotOurs),
        },
    }
}
