ghost use Rattle.std.specs.Prelude.{◌≡◌, ◌≢◌, List, ℕ, MatchOption};
ghost use Rattle.serde_json.specs.Data.{Data, object, no_members, member};
ghost use Rattle.serde_json.specs.View.{view};

use serde_json::Value as Json;

/// The one member of an object that has no other.
pub(crate) fn only_member(json: &Json) -> Option<(&str, &Json)>
    ensures { MatchOption result
        ((name : List ℕ) (d : Data) → view json.now ≢ object (member name d no_members))
        (λ p. view json.now ≡ object (member p.0.now (view p.1.now) no_members)) }
{
    let members = json.as_object()?;
    if members.len() != 1 {
        return None;
    }
    let (name, document) = members.first_key_value()?;
    Some((name.as_str(), document))
}
