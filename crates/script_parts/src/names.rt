//! Names that scripts give.
ghost use Rattle.std.specs.Prelude.{◌≡◌};
ghost use Rattle.serde_json.specs.View.{members_view};
ghost use Rattle.script_model.specs.Shapes.{are_named};

use serde_json::{Map, Value as Json};
use values::is_identifier;

/// Whether each member has the name of a field, a tag, a handler or a variable.
pub fn are_named(members: &Map<String, Json>) -> bool
    ensures { result ≡ are_named (members_view members.now.entries) }
{
    for (name, _) in members.iter() {
        if !is_identifier(name.as_str()) {
            return false;
        }
    }
    true
}
