//! Whether the numbers of `meta` are in their places.
ghost use Rattle.std.specs.Prelude.{◌≡◌, false};
ghost use Rattle.sqlite.specs.Held.{state};
ghost use Rattle.sqlite.specs.State.{HasCleanDisk};

use crate::asking::answer;
use sqlite::types::ValueRef;
use sqlite::{Alter, Connection, Row};
use stable_store::StoreFault;

/// The query of the numbers with their places.
const NUMBERS: &str = "SELECT rowid, k, v FROM meta ORDER BY rowid";

/// Whether each number of `meta` is in the place of its name.
pub(crate) fn have_places<A: Alter>(conn: &mut Connection<A>) -> Result<bool, StoreFault>
    ensures mode { (state A.Store conn.old).in_transaction ≡ false
        → (state A.Store conn.new).in_transaction ≡ false }
    ensures clean { HasCleanDisk (state A.Store conn.new) → HasCleanDisk (state A.Store conn.old) }
{
    let rows = answer(conn, NUMBERS)?;
    Ok(are_placed(&rows))
}

/// Whether each of these rows of `meta` is in the place of its name.
fn are_placed(rows: &[Row]) -> bool {
    for row in rows {
        if !is_placed(row) {
            return false;
        }
    }
    true
}

/// Whether this row of `meta` is in the place of its name.
fn is_placed(row: &Row) -> bool {
    has_place(row, 1, "version") || has_place(row, 2, "count") || has_place(row, 3, "next_top")
}

/// Whether this row of `meta` has this place and this name.
fn has_place(row: &Row, place: u32, name: &str) -> bool {
    has_number(row, place) && has_name(row, name)
}

/// Whether the first column of a row has this number.
fn has_number(row: &Row, number: u32) -> bool {
    match row.get_ref(0) {
        Ok(value) => is_number(value, number),
        Err(_) => false,
    }
}

/// Whether the second column of a row has this text.
fn has_name(row: &Row, name: &str) -> bool {
    match row.get_ref(1) {
        Ok(value) => is_text(value, name),
        Err(_) => false,
    }
}

fn is_number(value: ValueRef<'_>, number: u32) -> bool {
    match value {
        ValueRef::Int(found) => found == i64::from(number),
        _ => false,
    }
}

fn is_text(value: ValueRef<'_>, text: &str) -> bool {
    match value {
        ValueRef::Text(found) => found == text.as_bytes(),
        _ => false,
    }
}
