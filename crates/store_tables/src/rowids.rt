//! Rows with rising rowids.
ghost use Rattle.std.specs.Prelude.{◌≡◌, ℤ, IfSome, IsTrue, None};
ghost use Rattle.sqlite_trees.specs.View.{IsShaped};
ghost use Rattle.sqlite_trees.specs.declared.store.Shape.TheVariants.{Table};
ghost use Rattle.std.specs.List.{AllByRecursion};
ghost use Rattle.store_tables.specs.Answered.{rows_of};
ghost use Rattle.store_tables.specs.Rising.{ShowsAbove};

use sqlite::Row;
use sqlite::types::ValueRef;

/// The queries of the rowids of each table, by their order.
pub const ROWIDS: [&str; 6] = [
    "SELECT rowid FROM meta ORDER BY rowid",
    "SELECT rowid FROM base ORDER BY rowid",
    "SELECT rowid FROM prepared ORDER BY rowid",
    "SELECT rowid FROM prepared_val ORDER BY rowid",
    "SELECT rowid FROM decided ORDER BY rowid",
    "SELECT rowid FROM prepared_delta ORDER BY rowid",
];

/// Whether the rows of each answer have rising integers in their first columns.
pub fn all_rise(answers: &[Vec<Row>]) -> bool
    ensures rises { IsTrue result → AllByRecursion (IsShaped Table) (rows_of answers.now) }
    ensures found { AllByRecursion (IsShaped Table) (rows_of answers.now) → IsTrue result }
{
    for rows in answers {
        if !are_rising(rows) {
            return false;
        }
    }
    true
}

/// Whether the rows have rising integers in their first columns.
fn are_rising(rows: &[Row]) -> bool
    ensures rises { IsTrue result → IsShaped Table rows.now }
    ensures found { IsShaped Table rows.now → IsTrue result }
{
    let mut last = None;
    for row in rows {
        last = id_above(row, last);
        if last.is_none() {
            return false;
        }
    }
    true
}

/// The integer in the first column of a row, where it is above the last one.
fn id_above(row: &Row, last: Option<i64>) -> Option<i64>
    ensures rises { IfSome result (ShowsAbove last row.now) }
    ensures found { result ≡ None → (id : ℤ) → ¬ ShowsAbove last row.now id }
{
    let Ok(ValueRef::Int(id)) = row.get_ref(0) else {
        return None;
    };
    match last {
        Some(last) if id <= last => None,
        _ => Some(id),
    }
}
