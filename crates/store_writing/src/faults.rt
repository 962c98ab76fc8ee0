//! Errors of the database, and the faults that they are to a caller.
ghost use Rattle.std.specs.Prelude.{◌≡◌, ◌≢◌};
ghost use Rattle.stable_store.specs.declared.fault.StoreFault.TheVariants.{NotOurs};
ghost use Rattle.stable_store.specs.Calls.{IsExcused};
ghost use Rattle.store_writing.specs.Faults as spec;

use sqlite::{Error, ErrorCode};
use sqlite_resolve::CompileError;
use stable_store::StoreFault;

/// The error of a call where another transaction is under way.
pub(crate) const BUSY: Error = Error::SqliteFailure(ErrorCode::TransactionState);

/// The error of a call for which memory ran out.
pub(crate) const OUT_OF_MEMORY: Error = Error::SqliteFailure(ErrorCode::OutOfMemory);

/// The fault of a statement that the database refused: `Memory` if memory ran out, and else
/// `Failed`.
pub fn fault_of(error: Error) -> StoreFault
    ensures told { result ≢ NotOurs }
    ensures fault { result ≡ spec.fault_of error }
{
    match error {
        Error::SqliteFailure(code) => fault_of_code(code),
        Error::SqlInputError(refusal) => fault_of_refusal(refusal),
        _ => StoreFault::Failed,
    }
}

fn fault_of_code(code: ErrorCode) -> StoreFault
    ensures told { result ≢ NotOurs }
    ensures fault { result ≡ spec.fault_of_code code }
{
    match code {
        ErrorCode::OutOfMemory => StoreFault::Memory,
        _ => StoreFault::Failed,
    }
}

/// The fault of a statement that was not understood.
fn fault_of_refusal(refusal: CompileError) -> StoreFault
    ensures told { result ≢ NotOurs }
    ensures fault { result ≡ spec.fault_of_refusal refusal }
{
    match refusal {
        CompileError::OutOfMemory => StoreFault::Memory,
        _ => StoreFault::Failed,
    }
}

/// Counts the fault of a call, unless memory ran out, and gives it back.
pub fn count_fault(failures: &mut u64, fault: StoreFault) -> StoreFault
    ensures same { result ≡ fault }
    ensures counts { IsExcused (Unit {0}) failures.old failures.new fault }
{
    if fault != StoreFault::Memory {
        *failures = failures.saturating_add(1);
    }
    fault
}
