//! Which contents are of one type.
ghost use Rattle.std.specs.Prelude.{◌≡◌, Some};
ghost use Rattle.store_recovery.specs.Belonging.{alike_each, is_array, is_record, is_variant, same_field, same_tag, same_type, suits};

use atomic_types::Part;
use values::{Content, Field, Kind, Tag};

/// Whether a part may stand for an object that was set up with this content: a value of its type, or a delta for a
/// counter.
pub(crate) fn suits(content: &Content, part: &Part) -> bool
    ensures { result ≡ suits (Some content.now) part.now }
{
    match part {
        Part::Value(value) => same_type(content, value),
        Part::Delta(_) => matches!(content, Content::Counter(_)),
    }
}

/// Whether the contents are records of the same fields, arrays of the same kind, variants of the same tags, or
/// counters.
fn same_type(content: &Content, other: &Content) -> bool
    ensures { result ≡ same_type content.now other.now }
{
    match content {
        Content::Record(record) => is_record(record.fields(), other),
        Content::Array(array) => is_array(array.kind(), other),
        Content::Variant(variant) => is_variant(variant.tags(), other),
        Content::Counter(_) => matches!(other, Content::Counter(_)),
    }
}

fn is_record(fields: &[Field], other: &Content) -> bool
    ensures { result ≡ is_record fields.now other.now }
{
    match other {
        Content::Record(other) => same_fields(fields, other.fields()),
        _ => false,
    }
}

fn is_array(kind: Kind, other: &Content) -> bool
    ensures { result ≡ is_array kind other.now }
{
    match other {
        Content::Array(other) => kind == other.kind(),
        _ => false,
    }
}

fn is_variant(tags: &[Tag], other: &Content) -> bool
    ensures { result ≡ is_variant tags.now other.now }
{
    match other {
        Content::Variant(other) => same_tags(tags, other.tags()),
        _ => false,
    }
}

// Whether the fields have the same names and kinds.
fn same_fields(fields: &[Field], others: &[Field]) -> bool
    ensures { result ≡ alike_each same_field fields.now others.now }
{
    fields.len() == others.len()
        && fields.iter().zip(others).all(|(field, other)| {
            field.name == other.name && field.value.kind() == other.value.kind()
        })
}

// Whether the tags have the same names and kinds.
fn same_tags(tags: &[Tag], others: &[Tag]) -> bool
    ensures { result ≡ alike_each same_tag tags.now others.now }
{
    tags.len() == others.len()
        && tags.iter().zip(others).all(|(tag, other)| {
            tag.name == other.name && tag.kind == other.kind
        })
}
