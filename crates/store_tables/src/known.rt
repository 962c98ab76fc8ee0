//! Whether a database has the schema of a store and no other object.

ghost use Rattle.std.specs.Prelude.{◌≡◌, IsTrue, true, false, [], ◌∷◌, codes};
ghost use Rattle.sqlite.specs.Kind.TheVariants.{Integer};
ghost use Rattle.sqlite_value.specs.Keys.{plain};
ghost use Rattle.sqlite_catalog.specs.Listing.{automatic};
ghost use Rattle.store_tables.specs.Tables as tables;
ghost use Rattle.store_tables.specs.Known.{HasName, IsKeyed, HasPlainOrder};

use sqlite_schema::code::Terms;
use sqlite_schema::schema::{Action, Column, Index, Kind, Reference, Schema, Stamps, Table};
use sqlite_value::keys::Collation;
use sqlite_value::value::Value;

/// Whether it is the schema that a store makes in an empty database.
pub fn is_known(schema: &Schema) -> bool
    ensures is { IsTrue result → schema.now ≡ tables.stable_schema }
    ensures found { schema.now ≡ tables.stable_schema → IsTrue result }
{
    schema.views.is_empty() && has_tables(schema) && has_indexes(schema)
}

fn has_tables(schema: &Schema) -> bool
    ensures is { IsTrue result → schema.now.tables ≡ tables.stable_schema.tables }
    ensures found { schema.now.tables ≡ tables.stable_schema.tables → IsTrue result }
{
    let [meta, base, prepared, values, decided, deltas] = schema.tables.as_slice() else {
        return false;
    };
    is_meta(meta)
        && is_base(base)
        && is_prepared(prepared)
        && is_values(values)
        && is_decided(decided)
        && is_deltas(deltas)
}

fn has_indexes(schema: &Schema) -> bool
    ensures is { IsTrue result → schema.now.indexes ≡ tables.stable_schema.indexes }
    ensures found { schema.now.indexes ≡ tables.stable_schema.indexes → IsTrue result }
{
    let [meta_keys, value_keys, delta_keys] = schema.indexes.as_slice() else {
        return false;
    };
    is_meta_index(meta_keys) && is_value_index(value_keys) && is_delta_index(delta_keys)
}

fn is_meta_index(index: &Index) -> bool
    ensures is { IsTrue result → index.now ≡ automatic tables.meta 0 (1 ∷ []) 1 }
    ensures found { index.now ≡ automatic tables.meta 0 (1 ∷ []) 1 → IsTrue result }
{
    is_index(index, b"sqlite_autoindex_meta_1", 1, 0, &[1])
}

fn is_value_index(index: &Index) -> bool
    ensures is { IsTrue result
        → index.now ≡ automatic (record tables.prepared_val { tree = 4 }) 0 (1 ∷ 2 ∷ []) 5 }
    ensures found { index.now ≡ automatic (record tables.prepared_val { tree = 4 }) 0 (1 ∷ 2 ∷ []) 5
        → IsTrue result }
{
    is_index(index, b"sqlite_autoindex_prepared_val_1", 5, 4, &[1, 2])
}

fn is_delta_index(index: &Index) -> bool
    ensures is { IsTrue result
        → index.now ≡ automatic (record tables.prepared_delta { tree = 7 }) 0 (1 ∷ 2 ∷ []) 8 }
    ensures found { index.now
        ≡ automatic (record tables.prepared_delta { tree = 7 }) 0 (1 ∷ 2 ∷ []) 8
        → IsTrue result }
{
    is_index(index, b"sqlite_autoindex_prepared_delta_1", 8, 7, &[1, 2])
}

fn is_meta(table: &Table) -> bool
    ensures is { IsTrue result → table.now ≡ tables.meta }
    ensures found { table.now ≡ tables.meta → IsTrue result }
{
    has_pair(table, b"k", Kind::Text, b"v", Kind::Integer)
        && is_table(table, b"meta", 0, &[1])
        && has_unique(table, &[1])
        && table.references.is_empty()
}

fn is_base(table: &Table) -> bool
    ensures is { IsTrue result → table.now ≡ record tables.base { tree = 2 } }
    ensures found { table.now ≡ record tables.base { tree = 2 } → IsTrue result }
{
    has_pair(table, b"obj", Kind::Integer, b"val", Kind::Text)
        && is_table(table, b"base", 2, &[0])
        && is_keyed(table)
}

fn is_prepared(table: &Table) -> bool
    ensures is { IsTrue result → table.now ≡ record tables.prepared { tree = 3 } }
    ensures found { table.now ≡ record tables.prepared { tree = 3 } → IsTrue result }
{
    has_pair(table, b"top", Kind::Integer, b"home", Kind::Integer)
        && is_table(table, b"prepared", 3, &[0])
        && is_keyed(table)
}

fn is_values(table: &Table) -> bool
    ensures is { IsTrue result → table.now ≡ record tables.prepared_val { tree = 4 } }
    ensures found { table.now ≡ record tables.prepared_val { tree = 4 } → IsTrue result }
{
    has_part_columns(table, b"val", Kind::Text)
        && is_table(table, b"prepared_val", 4, &[1, 2])
        && has_unique(table, &[1, 2])
        && refers_to_prepared(table)
}

fn is_deltas(table: &Table) -> bool
    ensures is { IsTrue result → table.now ≡ record tables.prepared_delta { tree = 7 } }
    ensures found { table.now ≡ record tables.prepared_delta { tree = 7 } → IsTrue result }
{
    has_part_columns(table, b"add_by", Kind::Integer)
        && is_table(table, b"prepared_delta", 7, &[1, 2])
        && has_unique(table, &[1, 2])
        && refers_to_prepared(table)
}

fn is_decided(table: &Table) -> bool
    ensures is { IsTrue result → table.now ≡ record tables.decided { tree = 6 } }
    ensures found { table.now ≡ record tables.decided { tree = 6 } → IsTrue result }
{
    has_top_alone(table) && is_table(table, b"decided", 6, &[0]) && is_keyed(table)
}

/// Whether the table has these two columns, of which the second is NOT NULL.
fn has_pair(table: &Table, first: &[u8], first_kind: Kind, second: &[u8], second_kind: Kind) -> bool
    ensures is { IsTrue result → table.now.columns
        ≡ tables.column first.now first_kind false
        ∷ tables.column second.now second_kind true ∷ [] }
    ensures found { table.now.columns
        ≡ tables.column first.now first_kind false ∷ tables.column second.now second_kind true ∷ []
        → IsTrue result }
{
    let [one, other] = table.columns.as_slice() else {
        return false;
    };
    is_column(one, first, first_kind, false) && is_column(other, second, second_kind, true)
}

/// Whether the table has the columns of a top action, an object and this one.
fn has_part_columns(table: &Table, name: &[u8], kind: Kind) -> bool
    ensures is { IsTrue result → table.now.columns
        ≡ tables.column (codes "top") Integer true ∷ tables.column (codes "obj") Integer true
        ∷ tables.column name.now kind true ∷ [] }
    ensures found { table.now.columns
        ≡ tables.column (codes "top") Integer true ∷ tables.column (codes "obj") Integer true
        ∷ tables.column name.now kind true ∷ [] → IsTrue result }
{
    let [top, object, part] = table.columns.as_slice() else {
        return false;
    };
    is_column(top, b"top", Kind::Integer, true)
        && is_column(object, b"obj", Kind::Integer, true)
        && is_column(part, name, kind, true)
}

fn has_top_alone(table: &Table) -> bool
    ensures is { IsTrue result → table.now.columns ≡ tables.decided.columns }
    ensures found { table.now.columns ≡ tables.decided.columns → IsTrue result }
{
    let [top] = table.columns.as_slice() else {
        return false;
    };
    is_column(top, b"top", Kind::Integer, false)
}

/// Whether the table has this name, tree and primary key, and none of the rules that the tables of a store lack.
fn is_table(table: &Table, name: &[u8], tree: u32, primary: &[usize]) -> bool
    ensures is { IsTrue result → HasName name.now tree primary.now table.now }
    ensures found { HasName name.now tree primary.now table.now → IsTrue result }
{
    table.name.as_slice() == name
        && table.tree == tree
        && table.primary.as_slice() == primary
        && has_no_terms(&table.checks)
        && table.computed.is_empty()
        && is_unstamped(&table.stamps)
        && !table.is_counted
}

/// Whether the first column is the rowid, and there is no other key.
fn is_keyed(table: &Table) -> bool
    ensures is { IsTrue result → IsKeyed table.now }
    ensures found { IsKeyed table.now → IsTrue result }
{
    table.key == Some(0)
        && table.uniques.is_empty()
        && table.orders.is_empty()
        && table.references.is_empty()
}

/// Whether the rowid is no column, and these columns are the one key.
fn has_unique(table: &Table, places: &[usize]) -> bool
    ensures is { IsTrue result → HasPlainOrder places.now table.now }
    ensures found { HasPlainOrder places.now table.now → IsTrue result }
{
    table.key.is_none() && has_one_key(table, places) && has_one_order(table)
}

fn has_one_key(table: &Table, places: &[usize]) -> bool
    ensures is { IsTrue result → table.now.uniques ≡ places.now ∷ [] }
    ensures found { table.now.uniques ≡ places.now ∷ [] → IsTrue result }
{
    let [unique] = table.uniques.as_slice() else {
        return false;
    };
    unique.as_slice() == places
}

fn has_one_order(table: &Table) -> bool
    ensures is { IsTrue result → table.now.orders ≡ plain ∷ [] }
    ensures found { table.now.orders ≡ plain ∷ [] → IsTrue result }
{
    let [order] = table.orders.as_slice() else {
        return false;
    };
    order.digits == 0
}

fn is_column(column: &Column, name: &[u8], kind: Kind, not_null: bool) -> bool
    ensures is { IsTrue result → column.now ≡ tables.column name.now kind not_null }
    ensures found { column.now ≡ tables.column name.now kind not_null → IsTrue result }
{
    column.name.as_slice() == name
        && column.kind == kind
        && !column.is_strict
        && column.not_null == not_null
        && matches!(&column.default, Value::Null)
        && column.collation == Collation::Binary
}

fn refers_to_prepared(table: &Table) -> bool
    ensures is { IsTrue result → table.now.references ≡ tables.to_prepared ∷ [] }
    ensures found { table.now.references ≡ tables.to_prepared ∷ [] → IsTrue result }
{
    let [reference] = table.references.as_slice() else {
        return false;
    };
    is_to_prepared(reference)
}

fn is_to_prepared(reference: &Reference) -> bool
    ensures is { IsTrue result → reference.now ≡ tables.to_prepared }
    ensures found { reference.now ≡ tables.to_prepared → IsTrue result }
{
    reference.columns.as_slice() == [1].as_slice()
        && reference.parent.as_slice() == b"prepared".as_slice()
        && has_parent_column(reference, b"top")
        && reference.on_delete == Action::Cascade
        && reference.on_update == Action::NoAction
        && !reference.is_deferred
}

fn has_parent_column(reference: &Reference, name: &[u8]) -> bool
    ensures is { IsTrue result → reference.now.parent_columns ≡ name.now ∷ [] }
    ensures found { reference.now.parent_columns ≡ name.now ∷ [] → IsTrue result }
{
    let [column] = reference.parent_columns.as_slice() else {
        return false;
    };
    column.as_slice() == name
}

fn is_index(index: &Index, name: &[u8], tree: u32, table: u32, columns: &[usize]) -> bool
    ensures is { IsTrue result → index.now
        ≡ record {
          name = name.now;
          tree = tree;
          table = table;
          columns = columns.now;
          order = plain;
          is_unique = true;
        } }
    ensures found { index.now
        ≡ record {
          name = name.now;
          tree = tree;
          table = table;
          columns = columns.now;
          order = plain;
          is_unique = true;
        } → IsTrue result }
{
    index.name.as_slice() == name
        && index.tree == tree
        && index.table == table
        && index.columns.as_slice() == columns
        && index.order.digits == 0
        && index.is_unique
}

fn has_no_terms(terms: &Terms) -> bool
    ensures is { IsTrue result → terms.now ≡ [] }
    ensures found { terms.now ≡ [] → IsTrue result }
{
    terms.roots.is_empty()
}

fn is_unstamped(stamps: &Stamps) -> bool
    ensures is { IsTrue result → stamps.now ≡ record { places = []; terms = []; formats = [] } }
    ensures found { stamps.now ≡ record { places = []; terms = []; formats = [] } → IsTrue result }
{
    stamps.places.is_empty() && has_no_terms(&stamps.terms) && stamps.formats.is_empty()
}
