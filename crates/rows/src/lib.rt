//! Tests as rows of data. A program of tests reads sections `[NAME]` of rows `CALL ARGUMENTS => ANSWER`, makes each
//! call, and compares.
//!
//! The program gives a `Subject`, which makes the calls; `run` reads the rows, prints for each section how many there
//! were, and each row whose answer is another than the row says. Where memory is refused, a call is made once more and
//! has to answer the same: `scripts/refuse` refuses each allocation in turn.
#![tactic(auto)]

mod row;
mod table;

pub use row::{Row, RowFault, Words};
pub use table::{Subject, run};

/// The call's answer, or where memory was refused that of a second call of the same values.
#[macro_export]
macro_rules! again {
    ($call:expr) => {
        match $call {
            Err(_) => $call,
            answer => answer,
        }
    };
}
