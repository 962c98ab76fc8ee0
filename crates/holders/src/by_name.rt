//! Rows in a vector, in the order of their names, whatever a row is: mostly there are one or two. A name is compared
//! with the last row's first, and a lesser one is looked for among the others by a binary search.
//!
//! `guardian_index` keeps its rows by this too.
ghost use Rattle.std.specs.Prelude.{◌≡◌, ◌≤◌, ◌&&◌, not, length, drop, filter, is_some, IfOk, IfErr, OnOk, OnErr, if◌then◌else◌};
ghost use Rattle.std.specs.BTreeMap.{insert_entry, is_at};
ghost use Rattle.std.specs.List.{list_any, take_while};
ghost use Rattle.std.specs.List.Sorted.{IsStrictlySortedBy, IsSearchInRange};
ghost use Rattle.std.specs.Map.{keys_of, lookup, remove_entry, set_value};
ghost use Rattle.std.specs.Option.{option_copied};
ghost use Rattle.action_names.specs.Names.{has_name, is_ancestor, name_cmp};
ghost use Rattle.holders.specs.Places.{IsRowAt, IsGapAt, IsStartAt};

use action_names::Name;
use std::alloc::AllocError;
use std::cmp::Ordering;
use std::mem;

/// The row of the name.
pub fn find<'a, R>(rows: &'a [(Name, R)], name: &Name) -> Option<&'a R>
    requires { IsStrictlySortedBy name_cmp (keys_of rows.now) }
    ensures { option_copied result ≡ lookup (is_at (name_cmp name.now)) rows.now }
{
    match place(rows, name) {
        Ok(at) => Some(&rows[at].1),
        Err(_) => None,
    }
}

/// Puts in a row of the name, unless it has one. If memory runs out, nothing is changed.
pub(crate) fn add<R: Drop>(rows: &mut Vec<(Name, R)>, name: &Name, row: R) -> Result<(), AllocError>
    requires { IsStrictlySortedBy name_cmp (keys_of rows.old.items) }
    ensures ok { OnOk result (rows.new.items ≡ (if has_name (keys_of rows.old.items) name.now
        then rows.old.items else insert_entry name_cmp rows.old.items name.now row)) }
    ensures err { OnErr result (rows.new.items ≡ rows.old.items) }
{
    match place(rows, name) {
        Ok(_) => Ok(()),
        Err(at) => {
            let own = name.copy()?;
            Ok(rows.insert(at, (own, row))?)
        }
    }
}

/// Puts in a row of the name, in the place of the one that it has, which is handed back. If memory runs out, nothing
/// is changed.
pub(crate) fn put<R: Drop>(
    rows: &mut Vec<(Name, R)>,
    name: &Name,
    row: R,
) -> Result<Option<R>, AllocError>
    requires { IsStrictlySortedBy name_cmp (keys_of rows.old.items) }
    ensures before { IfOk result
        (λ before. before ≡ lookup (is_at (name_cmp name.now)) rows.old.items) }
    ensures ok { OnOk result
        (rows.new.items ≡ insert_entry name_cmp rows.old.items name.now row) }
    ensures err { OnErr result (rows.new.items ≡ rows.old.items) }
{
    match place(rows, name) {
        Ok(at) => {
            let entry = &mut rows[at];
            Ok(Some(mem::replace(&mut entry.1, row)))
        }
        Err(at) => {
            let own = name.copy()?;
            rows.insert(at, (own, row))?;
            Ok(None)
        }
    }
}

/// Changes the row of the name, if it has one.
pub(crate) fn write<R: Drop>(rows: &mut Vec<(Name, R)>, name: &Name, row: R)
    requires { IsStrictlySortedBy name_cmp (keys_of rows.old.items) }
    ensures { rows.new.items ≡ set_value (is_at (name_cmp name.now)) rows.old.items row }
{
    if let Ok(at) = place(rows, name) {
        let entry = &mut rows[at];
        entry.1 = row;
    }
}

/// Takes out the row of the name.
pub fn remove<R>(rows: &mut Vec<(Name, R)>, name: &Name) -> Option<R>
    requires { IsStrictlySortedBy name_cmp (keys_of rows.old.items) }
    ensures value { result ≡ lookup (is_at (name_cmp name.now)) rows.old.items }
    ensures rows { rows.new.items ≡ remove_entry (is_at (name_cmp name.now)) rows.old.items }
{
    match place(rows, name) {
        Ok(at) => Some(rows.remove(at).1),
        Err(_) => None,
    }
}

/// Drops the rows of the action and its descendants.
pub fn drop_below<R: Drop>(rows: &mut Vec<(Name, R)>, action: &Name)
    requires { IsStrictlySortedBy name_cmp (keys_of rows.old.items) }
    ensures { rows.new.items ≡ filter (λ r. not (is_ancestor action.now r.0)) rows.old.items }
{
    let from = start(rows, action);
    let count = count_below(&rows[from..], action);
    rows.drain(from..from + count);
}

/// The rows of the action and its descendants. They stand next to each other, from the action on.
pub fn below<'a, R>(rows: &'a [(Name, R)], action: &Name) -> &'a [(Name, R)]
    requires { IsStrictlySortedBy name_cmp (keys_of rows.now) }
    ensures { result.now ≡ filter (λ r. is_ancestor action.now r.0) rows.now }
{
    let rest = &rows[start(rows, action)..];
    &rest[..count_below(rest, action)]
}

/// Whether a row of the action or of a descendant holds something. They stand next to each other, from the action on.
pub(crate) fn any_below<V>(rows: &[(Name, Option<V>)], action: &Name) -> bool
    requires { IsStrictlySortedBy name_cmp (keys_of rows.now) }
    ensures { result ≡ list_any (λ r. is_some r.1 && is_ancestor action.now r.0) rows.now }
{
    let from = start(rows, action);
    rows[from..]
        .iter()
        .take_while(|(holder, _)| action.is_ancestor(holder))
        .any(|(_, row)| row.is_some())
}

/// Whether a row holds something and its holder is no ancestor of the action.
pub(crate) fn any_foreign<V>(rows: &[(Name, Option<V>)], action: &Name) -> bool
    ensures { result ≡ list_any (λ r. is_some r.1 && not (is_ancestor r.0 action.now)) rows.now }
{
    rows.iter()
        .any(|(holder, row)| is_foreign(holder, row, action))
}

/// Whether the row holds something and its holder is no ancestor of the action.
pub(crate) fn is_foreign<V>(holder: &Name, row: &Option<V>, action: &Name) -> bool
    ensures { result ≡ (is_some row.now && not (is_ancestor holder.now action.now)) }
{
    row.is_some() && !holder.is_ancestor(action)
}

// How many rows of the action and its descendants come first.
fn count_below<R>(rows: &[(Name, R)], action: &Name) -> usize
    ensures count { result ≡ length (take_while (λ r. is_ancestor action.now r.0) rows.now) }
    ensures within { result ≤ length rows.now }
{
    rows.iter()
        .take_while(|row| action.is_ancestor(&row.0))
        .count()
}

// Where the row of the name stands, or the first of a greater name.
fn start<R>(rows: &[(Name, R)], name: &Name) -> usize
    requires { IsStrictlySortedBy name_cmp (keys_of rows.now) }
    ensures start { IsStartAt rows.now name.now result }
    ensures within { result ≤ length rows.now }
{
    match place(rows, name) {
        Ok(at) => at,
        Err(at) => at,
    }
}

/// Where the row of the name stands, or would stand. The last row is looked at first: mostly the holder that acts is
/// a descendant of the others. One comparison tells whether the name has this row, has its place behind it, or is to
/// be searched for among the others.
pub fn place<R>(rows: &[(Name, R)], name: &Name) -> Result<usize, usize>
    requires { IsStrictlySortedBy name_cmp (keys_of rows.now) }
    ensures found { IfOk result (IsRowAt rows.now name.now) }
    ensures absent { IfErr result (IsGapAt rows.now name.now) }
    ensures within { IsSearchInRange result (length rows.now) }
{
    let Some(((last, _), before)) = rows.split_last() else {
        return Err(0);
    };
    match last.cmp(name) {
        Ordering::Less => Err(rows.len()),
        Ordering::Equal => Ok(before.len()),
        Ordering::Greater => before.binary_search_by(|(known, _)| known.cmp(name)),
    }
}
