//! Contents of objects. A call fails with the first fault in what it reads, or out of memory.
ghost use Rattle.std.specs.Prelude.{◌&&◌, nat_le, ◌≡◌, ◌<◌, ◌^◌, IfOk, IfErr, true};
ghost use Rattle.std.specs.List.{AllByRecursion};
ghost use Rattle.serde_json.specs.View.{view, members_view, items_view};
ghost use Rattle.serde_json.specs.Events.{members_len};
ghost use Rattle.values.specs.Fields.{HasRisingNames};
ghost use Rattle.values.specs.Tags.{HasTagsForm, tag_kind};
ghost use Rattle.values.specs.Words.{IsIdentifier};
ghost use Rattle.script_model.specs.Shapes.{are_named};
ghost use Rattle.script_model.specs.Reading.{Answers};
ghost use Rattle.script_model.specs.ContentReading as spec;
ghost use Rattle.script_parts.specs.Places.{pointer, AnswersBy};

use crate::expressions::short_text;
use crate::names::are_named;
use crate::operations::tag_named;
use crate::place::Place;
use crate::shapes::{int, is_within, kind_in, list, object, only_member, string, three_members};
use script_model::{FaultKind, ScriptFault};
use serde_json::{Map, Value as Json};
use std::alloc::Global;
use values::{
    Array, Content, Counter, Field, GREATEST_INDEX, Identifier, Kind, LEAST_INDEX, MAX_FIELDS,
    MAX_ITEMS, MAX_TAGS, Record, Tag, Value, ValueFault, Variant,
};

/// The identifier of these characters, which are one. Fails only if memory runs out.
pub fn identifier(alloc: Global, text: &str) -> Result<Identifier, ScriptFault>
    requires { IsIdentifier text.now }
    ensures read { IfOk result (λ name. name ≡ text.now) }
    ensures refused { IfErr result (λ e. e ≡ ScriptFault.Memory) }
{
    match Identifier::parse(alloc, text) {
        Ok(identifier) => Ok(identifier),
        Err(ValueFault::Memory) => Err(ScriptFault::Memory),
        Err(ValueFault::Unfit) => unreachable!(),
    }
}

fn is_wanted(wanted: Option<Kind>, kind: Kind) -> bool
    ensures { result ≡ spec.is_wanted wanted kind }
{
    match wanted {
        Some(wanted) => wanted == kind,
        None => true,
    }
}

fn text_in(
    alloc: Global,
    place: &Place<'_>,
    wanted: Option<Kind>,
    text: &str,
) -> Result<Value, ScriptFault>
    ensures { Answers (spec.text_value wanted text.now (pointer place.now)) result }
{
    place.ask(alloc, is_wanted(wanted, Kind::Text), FaultKind::Kind)?;
    Ok(Value::Text(short_text(alloc, place, text)?))
}

/// A value of the kind that is wanted, or of either.
fn value_in(
    alloc: Global,
    place: &Place<'_>,
    wanted: Option<Kind>,
    json: &Json,
) -> Result<Value, ScriptFault>
    ensures { Answers (spec.value_in wanted (view json.now) (pointer place.now)) result }
{
    match json {
        Json::Number(number) => {
            let Some(number) = number.as_i64() else {
                return Err(place.fault(alloc, FaultKind::Shape));
            };
            place.ask(alloc, is_wanted(wanted, Kind::Int), FaultKind::Kind)?;
            Ok(Value::Int(number))
        }
        Json::String(text) => text_in(alloc, place, wanted, text.as_str()),
        _ => Err(place.fault(alloc, FaultKind::Shape)),
    }
}

fn is_count(members: &Map<String, Json>, most: usize) -> bool
    ensures { result
        ≡ (nat_le 1 (members_len (members_view members.now.entries))
        && nat_le (members_len (members_view members.now.entries)) most) }
{
    is_within(members.len(), 1, most)
}

/// Asks that the members have names, and that they are 1 to so many.
fn ask_names(
    alloc: Global,
    place: &Place<'_>,
    most: usize,
    members: &Map<String, Json>,
) -> Result<(), ScriptFault>
    ensures { Answers (spec.ask_names most (members_view members.now.entries) (pointer place.now))
        result }
{
    place.ask(alloc, are_named(members), FaultKind::Shape)?;
    place.ask(alloc, is_count(members, most), FaultKind::Limit)
}

fn fields_in<'x>(
    alloc: Global,
    place: &'x Place<'x>,
    members: &'x Map<String, Json>,
) -> Result<Vec<Field>, ScriptFault>
    requires { are_named (members_view members.now.entries) ≡ true }
    ensures read { AnswersBy (λ v. v.items)
        (spec.fields_in (members_view members.now.entries) (pointer place.now)) result }
    ensures rising { IfOk result (λ v. HasRisingNames v.items) }
{
    let mut fields = Vec::with_capacity(alloc, members.len())?;
    for (name, json) in members.iter() {
        let value = value_in(alloc, &place.member(name.as_str()), None, json)?;
        let name = identifier(alloc, name.as_str())?;
        fields.push(Field { name, value })?;
    }
    Ok(fields)
}

fn record_in(alloc: Global, place: &Place<'_>, json: &Json) -> Result<Content, ScriptFault>
    ensures { Answers (spec.record_in (view json.now) (pointer place.now)) result }
{
    let members = object(alloc, place, json)?;
    ask_names(alloc, place, MAX_FIELDS, members)?;
    let fields = fields_in(alloc, place, members)?;
    match Record::from_fields(fields) {
        Ok(record) => Ok(Content::Record(record)),
        Err(_) => Err(place.fault(alloc, FaultKind::Shape)),
    }
}

/// Whether so many items from this index on lie within the bounds.
fn is_low(low: i64, count: usize) -> bool
    ensures { result ≡ spec.is_low low count }
{
    LEAST_INDEX <= low
        && low <= GREATEST_INDEX
        && (count == 0 || (count as u64) <= low.abs_diff(GREATEST_INDEX) + 1)
}

fn items_of(json: &Json) -> usize
    ensures { result ≡ spec.items_of (view json.now) }
{
    match json.as_array() {
        Some(items) => items.len(),
        None => 0,
    }
}

fn items_in(
    alloc: Global,
    place: &Place<'_>,
    kind: Kind,
    json: &Json,
) -> Result<Vec<Value>, ScriptFault>
    ensures { AnswersBy (λ v. v.items)
        (spec.items_in kind (view json.now) (pointer place.now)) result }
{
    let documents = list(alloc, place, json, 0, MAX_ITEMS)?;
    let mut items = Vec::with_capacity(alloc, documents.len())?;
    for (i, document) in documents.iter().enumerate() {
        items.push(value_in(alloc, &place.item(i), Some(kind), document)?)?;
    }
    Ok(items)
}

fn array_in(alloc: Global, place: &Place<'_>, json: &Json) -> Result<Content, ScriptFault>
    ensures { Answers (spec.array_in (view json.now) (pointer place.now)) result }
{
    let (documents, low, of) = three_members(alloc, place, json, ["items", "low", "of"])?;
    let kind = place
        .member("of")
        .need(alloc, kind_in(of), FaultKind::Shape)?;
    let below = place.member("low");
    let low = int(alloc, &below, low)?;
    below.ask(alloc, is_low(low, items_of(documents)), FaultKind::Limit)?;
    let items = items_in(alloc, &place.member("items"), kind, documents)?;
    match Array::from_items(kind, low, items)? {
        Ok(array) => Ok(Content::Array(array)),
        Err(_) => Err(place.fault(alloc, FaultKind::Shape)),
    }
}

fn tags_in<'x>(alloc: Global, place: &'x Place<'x>, json: &'x Json) -> Result<Vec<Tag>, ScriptFault>
    ensures read { AnswersBy (λ v. v.items)
        (spec.tag_list (view json.now) (pointer place.now)) result }
    ensures form { IfOk result (λ v. HasTagsForm v.items) }
    ensures named { IfOk result (λ v. AllByRecursion (λ t. IsIdentifier t.name) v.items) }
{
    let members = object(alloc, place, json)?;
    ask_names(alloc, place, MAX_TAGS, members)?;
    let mut tags = Vec::with_capacity(alloc, members.len())?;
    for (name, json) in members.iter() {
        let inside = place.member(name.as_str());
        let kind = inside.need(alloc, kind_in(json), FaultKind::Shape)?;
        let name = identifier(alloc, name.as_str())?;
        tags.push(Tag { name, kind })?;
    }
    Ok(tags)
}

fn kind_under(tags: &[Tag], name: &str) -> Option<Kind>
    ensures { result ≡ tag_kind tags.now name.now }
{
    match tag_named(tags, name) {
        Some(tag) => Some(tag.kind),
        None => None,
    }
}

fn variant_in(alloc: Global, place: &Place<'_>, json: &Json) -> Result<Content, ScriptFault>
    ensures { Answers (spec.variant_in (view json.now) (pointer place.now)) result }
{
    let (tag, kinds, held) = three_members(alloc, place, json, ["tag", "tags", "value"])?;
    let tags = tags_in(alloc, &place.member("tags"), kinds)?;
    let above = place.member("tag");
    let name = string(alloc, &above, tag)?;
    let kind = above.need(alloc, kind_under(&tags, name), FaultKind::Operation)?;
    let value = value_in(alloc, &place.member("value"), Some(kind), held)?;
    let tag = identifier(alloc, name)?;
    match Variant::from_parts(tags, tag, value)? {
        Some(variant) => Ok(Content::Variant(variant)),
        None => Err(place.fault(alloc, FaultKind::Shape)),
    }
}

fn counter_in(alloc: Global, place: &Place<'_>, json: &Json) -> Result<Content, ScriptFault>
    ensures { Answers (spec.counter_in (view json.now) (pointer place.now)) result }
{
    Ok(Content::Counter(Counter::new(int(alloc, place, json)?)))
}

fn content_member(
    alloc: Global,
    place: &Place<'_>,
    name: &str,
    json: &Json,
) -> Result<Content, ScriptFault>
    ensures { Answers (spec.content_member name.now (view json.now) (pointer place.now)) result }
{
    if name == "record" {
        record_in(alloc, &(&*place).member("record"), json)
    } else if name == "array" {
        array_in(alloc, &(&*place).member("array"), json)
    } else if name == "variant" {
        variant_in(alloc, &(&*place).member("variant"), json)
    } else if name == "counter" {
        counter_in(alloc, &(&*place).member("counter"), json)
    } else {
        Err(place.fault(alloc, FaultKind::Shape))
    }
}

/// What an object holds at first. Fails with `Shape` if it is no content, and with `Limit` if it
/// has too many or too long parts. Fails with `Kind` if a value is of the other kind, and with
/// `Operation` if a variant has no such tag.
pub fn content(alloc: Global, place: &Place<'_>, json: &Json) -> Result<Content, ScriptFault>
    ensures { Answers (spec.content (view json.now) (pointer place.now)) result }
{
    match only_member(json) {
        Some((name, inner)) => content_member(alloc, place, name, inner),
        None => Err(place.fault(alloc, FaultKind::Shape)),
    }
}
