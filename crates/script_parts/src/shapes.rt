//! Shapes of JSON. A call fails with a fault at the place that it is given, or out of memory.
ghost use Rattle.std.specs.Prelude.{◌≡◌, ℕ, List, [], ◌∷◌, map, option_map, nat_le, ◌&&◌, MatchOption};
ghost use Rattle.std.specs.List.{list_any};
ghost use Rattle.serde_json.specs.Find.{get_member};
ghost use Rattle.serde_json.specs.View.{view, items_view, members_view};
ghost use Rattle.values.specs.Words.{same_bytes};
ghost use Rattle.script_model.specs.Shapes.{is_among, has_only, the_object, the_array, the_string, the_int, the_two, the_three, the_pair, the_triple, the_list, only_member, kind_named, kind_in};
ghost use Rattle.script_parts.specs.Places.{pointer, AnswersBy};

use crate::place::Place;
use script_model::{FaultKind, ScriptFault};
use serde_json::{Map, Value as Json};
use std::alloc::Global;
use values::Kind;

/// The members of an object. Fails with `Shape` if it is none.
pub fn object<'j>(
    alloc: Global,
    place: &Place<'_>,
    json: &'j Json,
) -> Result<&'j Map<String, Json>, ScriptFault>
    ensures { AnswersBy (λ m. members_view m.now.entries)
        (the_object (view json.now) (pointer place.now)) result }
{
    match json.as_object() {
        Some(members) => Ok(members),
        None => Err(place.fault(alloc, FaultKind::Shape)),
    }
}

/// The elements of an array. Fails with `Shape` if it is none.
pub fn array<'j>(
    alloc: Global,
    place: &Place<'_>,
    json: &'j Json,
) -> Result<&'j [Json], ScriptFault>
    ensures { AnswersBy (λ v. items_view v.now)
        (the_array (view json.now) (pointer place.now)) result }
{
    match json.as_array() {
        Some(items) => Ok(items.as_slice()),
        None => Err(place.fault(alloc, FaultKind::Shape)),
    }
}

/// The characters of a string. Fails with `Shape` if it is none.
pub fn string<'j>(alloc: Global, place: &Place<'_>, json: &'j Json) -> Result<&'j str, ScriptFault>
    ensures { AnswersBy (λ s. s.now) (the_string (view json.now) (pointer place.now)) result }
{
    match json.as_str() {
        Some(text) => Ok(text),
        None => Err(place.fault(alloc, FaultKind::Shape)),
    }
}

/// An int of signed 64 bits. Fails with `Shape` if it is none.
pub fn int(alloc: Global, place: &Place<'_>, json: &Json) -> Result<i64, ScriptFault>
    ensures { AnswersBy (λ z. z) (the_int (view json.now) (pointer place.now)) result }
{
    place.need(alloc, json.as_i64(), FaultKind::Shape)
}

/// The member of this name, if there is one.
pub fn member<'j>(members: &'j Map<String, Json>, name: &str) -> Option<&'j Json>
    ensures { option_map (λ v. view v.now) result
        ≡ get_member name.now (members_view members.now.entries) }
{
    members.get(name)
}

fn is_among(names: &[&str], name: &str) -> bool
    ensures { result ≡ list_any (λ n. same_bytes n.now name.now) names.now }
{
    names.iter().any(|n| *n == name)
}

/// Whether no member has another name than these.
pub fn has_only(members: &Map<String, Json>, names: &[&str]) -> bool
    ensures { result ≡ has_only (map (λ n. n.now) names.now) (members_view members.now.entries) }
{
    for (name, _) in members.iter() {
        if !is_among(names, name.as_str()) {
            return false;
        }
    }
    true
}

/// The two members of an object that has these and no other. Fails with `Shape` if it is none such.
pub fn two_members<'j>(
    alloc: Global,
    place: &Place<'_>,
    json: &'j Json,
    first: &str,
    second: &str,
) -> Result<(&'j Json, &'j Json), ScriptFault>
    ensures { AnswersBy (λ p. (view p.0.now, view p.1.now))
        (the_two first.now second.now (view json.now) (pointer place.now)) result }
{
    let members = object(alloc, place, json)?;
    if has_only(members, &[first, second]) {
        if let (Some(one), Some(two)) = (member(members, first), member(members, second)) {
            return Ok((one, two));
        }
    }
    Err(place.fault(alloc, FaultKind::Shape))
}

/// The three members of an object that has these and no other. Fails with `Shape` if it is none
/// such.
pub fn three_members<'j>(
    alloc: Global,
    place: &Place<'_>,
    json: &'j Json,
    names: [&str; 3],
) -> Result<(&'j Json, &'j Json, &'j Json), ScriptFault>
    ensures { (l m n : List ℕ) → map (λ s. s.now) names.entry ≡ l ∷ m ∷ n ∷ []
        → AnswersBy (λ p. (view p.0.now, view p.1.now, view p.2.now))
        (the_three l m n (view json.now) (pointer place.now)) result }
{
    let members = object(alloc, place, json)?;
    if has_only(members, &names) {
        let [first, second, third] = names;
        let found = (
            member(members, first),
            member(members, second),
            member(members, third),
        );
        if let (Some(one), Some(two), Some(three)) = found {
            return Ok((one, two, three));
        }
    }
    Err(place.fault(alloc, FaultKind::Shape))
}

/// The two elements of an array that has two. Fails with `Shape` if it is none such.
pub fn pair<'j>(
    alloc: Global,
    place: &Place<'_>,
    json: &'j Json,
) -> Result<(&'j Json, &'j Json), ScriptFault>
    ensures { AnswersBy (λ p. (view p.0.now, view p.1.now))
        (the_pair (view json.now) (pointer place.now)) result }
{
    match array(alloc, place, json)? {
        [first, second] => Ok((first, second)),
        _ => Err(place.fault(alloc, FaultKind::Shape)),
    }
}

/// The three elements of an array that has three. Fails with `Shape` if it is none such.
pub fn triple<'j>(
    alloc: Global,
    place: &Place<'_>,
    json: &'j Json,
) -> Result<(&'j Json, &'j Json, &'j Json), ScriptFault>
    ensures { AnswersBy (λ p. (view p.0.now, view p.1.now, view p.2.now))
        (the_triple (view json.now) (pointer place.now)) result }
{
    match array(alloc, place, json)? {
        [first, second, third] => Ok((first, second, third)),
        _ => Err(place.fault(alloc, FaultKind::Shape)),
    }
}

/// The elements of an array that has so many, at least and at most. Fails with `Shape` if it is no
/// array, and with `Limit` if it has fewer or more.
pub fn list<'j>(
    alloc: Global,
    place: &Place<'_>,
    json: &'j Json,
    least: usize,
    most: usize,
) -> Result<&'j [Json], ScriptFault>
    ensures { AnswersBy (λ v. items_view v.now)
        (the_list least most (view json.now) (pointer place.now)) result }
{
    let items = array(alloc, place, json)?;
    if is_within(items.len(), least, most) {
        Ok(items)
    } else {
        Err(place.fault(alloc, FaultKind::Limit))
    }
}

pub(crate) fn is_within(count: usize, least: usize, most: usize) -> bool
    ensures { result ≡ (nat_le least count && nat_le count most) }
{
    least <= count && count <= most
}

/// The one member of an object that has no other, if it is such.
pub(crate) fn only_member(json: &Json) -> Option<(&str, &Json)>
    ensures { MatchOption result (only_member (view json.now) ≡ None)
        (λ p. only_member (view json.now) ≡ Some (p.0.now, view p.1.now)) }
{
    let members = json.as_object()?;
    if members.len() != 1 {
        return None;
    }
    let (name, document) = members.first_key_value()?;
    Some((name.as_str(), document))
}

/// The kind of this name, `int` or `text`.
pub fn kind_named(name: &str) -> Option<Kind>
    ensures { result ≡ kind_named name.now }
{
    if name == "int" {
        Some(Kind::Int)
    } else if name == "text" {
        Some(Kind::Text)
    } else {
        None
    }
}

/// The kind that this document names, if it names one.
pub fn kind_in(json: &Json) -> Option<Kind>
    ensures { result ≡ kind_in (view json.now) }
{
    kind_named(json.as_str()?)
}
