ghost use Rattle.std.specs.Prelude.{◌≡◌, is_some};
ghost use Rattle.serde_json.specs.Find.{get_member};
ghost use Rattle.serde_json.specs.View.{view, members_view};
ghost use Rattle.script_model.specs.ScriptReading as spec;

use script_model::Gives;
use script_parts::shapes::member;
use serde_json::{Map, Value as Json};

fn has(members: &Map<String, Json>, name: &str) -> bool
    ensures { result ≡ is_some (get_member name.now (members_view members.now.entries)) }
{
    member(members, name).is_some()
}

/// Whether a body cannot end but by its last statement: a `return`, an `abort`, or an `if` whose two bodies end so.
#[cycle(ends)]
pub(crate) fn ends(body: &Json) -> bool
    ensures { result ≡ spec.ends (view body.now) }
{
    match body {
        Json::Array(statements) => match statements.as_slice() {
            [.., last] => is_end(last),
            [] => false,
        },
        _ => false,
    }
}

#[cycle(ends)]
fn is_end(statement: &Json) -> bool
    ensures { result ≡ spec.is_end (view statement.now) }
{
    let Json::Object(members) = statement else {
        return false;
    };
    has(members, "return") || has(members, "abort") || first_if_ends(members)
}

/// Whether both bodies of a statement's `if` end so.
#[cycle(ends)]
fn first_if_ends(members: &Map<String, Json>) -> bool
    ensures { result ≡ spec.first_if_ends (members_view members.now.entries) }
{
    for (name, parts) in members.iter() {
        if name.as_str() == "if" {
            return branches_end(parts);
        }
    }
    false
}

#[cycle(ends)]
fn branches_end(parts: &Json) -> bool
    ensures { result ≡ spec.branches_end (view parts.now) }
{
    let Json::Array(parts) = parts else {
        return false;
    };
    match parts.as_slice() {
        [_, first, second] => ends(first) && ends(second),
        _ => false,
    }
}

/// Whether a body that has to give a value can end without one.
pub(crate) fn may_lack_value(gives: Option<Gives>, body: &Json) -> bool
    ensures { result ≡ spec.may_lack_value gives (view body.now) }
{
    match gives {
        Some(Gives::Value(_)) => body.as_array().is_some() && !ends(body),
        _ => false,
    }
}
