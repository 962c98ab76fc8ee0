ghost use Rattle.std.specs.Prelude.{◌≡◌, ◌+◌, ◌<◌, ◌≤◌, ℕ, length, min, option_map, unwrap_or, IfOk};
ghost use Rattle.serde_json.specs.Data.{no_members};
ghost use Rattle.serde_json.specs.View.{view, items_view, members_view};
ghost use Rattle.script_model.specs.Signatures as spec;
ghost use Rattle.serde_json.specs.Events.{members_len};
ghost use Rattle.limits.specs.Limits.{max_guardians};
ghost use Rattle.script.specs.Found.{found_in};

use script_model::{Gives, Sort};
use script_parts::operations::sort_of_kind;
use script_parts::shapes::{kind_in, kind_named, member};
use serde_json::{Map, Value as Json};
use std::alloc::{AllocError, Global};
use std::marker::Model;
use values::Kind;

/// How many handlers a script has at most.
pub(crate) const MAX_HANDLERS: u32 = 64;

/// The documents of all guardians, however they are formed, in which calls look for handlers.
#[derive(Drop)]
pub(crate) struct Handlers<'j> {
    guardians: &'j [Json],
    /// How many handlers stand before those of each guardian.
    before: Vec<u32>,
}

impl<'j> Model for Handlers<'j> {
    ghost use Rattle.std.specs.Prelude.{List};
    ghost use Rattle.std.specs.Coded.{codes};
    ghost use Rattle.serde_json.specs.declared.value.Value as json;
    ghost use Rattle.serde_json.specs.contracts.value.Value as of_json;

    ghost Value = { List json.Value };

    ghost coded = { Prim.hlevel (codes, of_json.the_row.coded) };

    ghost use Rattle.serde_json.specs.View.{items_view};
    ghost use Rattle.script.specs.Found.{AreBefore};

    ghost view = { λ h. h.guardians.now };

    ghost invariant = { λ h. AreBefore (items_view h.guardians.now) h.before.items };
}

fn handlers_in(guardian: &Json) -> Option<&Map<String, Json>>
    ensures { unwrap_or (option_map (λ m. members_view m.now.entries) result) no_members
        ≡ spec.handlers_in (view guardian.now) }
{
    guardian.get("handlers")?.as_object()
}

fn count_handlers(guardian: &Json) -> u32
    ensures { result ≡ min (members_len (spec.handlers_in (view guardian.now))) spec.max_handlers }
{
    match handlers_in(guardian) {
        Some(handlers) => handlers.len().min(MAX_HANDLERS as usize) as u32,
        None => 0,
    }
}

fn place_among(name: &str, handlers: &Map<String, Json>) -> u32
    ensures { result
        ≡ spec.place_among spec.max_handlers name.now (members_view handlers.now.entries) }
{
    let mut place = 0;
    for other in handlers.keys() {
        if place == MAX_HANDLERS {
            return place;
        }
        if other.as_str() == name {
            return place;
        }
        place += 1;
    }
    place
}

impl<'j> Handlers<'j> {
    /// The handlers of these guardians, of which there are at most 1,024.
    pub(crate) fn new(alloc: Global, guardians: &'j [Json]) -> Result<Handlers<'j>, AllocError>
        requires { length guardians.now ≤ max_guardians }
        ensures { IfOk result (λ h. h ≡ guardians.now) }
    {
        let mut before = Vec::with_capacity(alloc, guardians.len())?;
        let mut count = 0;
        for guardian in guardians {
            before.push(count)?;
            count += count_handlers(guardian);
        }
        Ok(Handlers { guardians, before })
    }

    /// How many guardians there are.
    pub(crate) fn guardians(&self) -> usize
        ensures { result ≡ length self.now }
    {
        self.guardians.len()
    }

    /// The documents of the guardians.
    pub(crate) fn documents(&self) -> &'j [Json]
        ensures { result.now ≡ self.now }
    {
        self.guardians
    }

    /// The number of the guardian of this index: numbers begin at 1.
    pub(crate) fn number(&self, index: usize) -> u32
        requires { index < length self.now }
        ensures { result ≡ index + 1 }
    {
        // With the guardians it is known that they are few.
        let _ = &self.guardians;
        index as u32 + 1
    }

    /// The number and the document of a guardian's handler.
    pub(crate) fn find(&self, guardian: usize, name: &str) -> Option<(u32, &'j Json)>
        ensures { option_map (λ p. (p.0, view p.1.now)) result
            ≡ found_in (items_view self.now) guardian name.now }
    {
        let handlers = handlers_in(self.guardians.get(guardian)?)?;
        let handler = member(handlers, name)?;
        let before = *self.before.get(guardian)?;
        Some((before + place_among(name, handlers), handler))
    }
}

fn params_in(handler: &Json) -> Option<&Vec<Json>>
    ensures { option_map (λ v. items_view v.now.items) result ≡ spec.params_in (view handler.now) }
{
    handler.get("params")?.as_array()
}

fn param_kind(json: &Json) -> Option<Kind>
    ensures { result ≡ spec.param_kind (view json.now) }
{
    match json.as_array()?.as_slice() {
        [_, kind] => kind_in(kind),
        _ => None,
    }
}

/// The kind that the argument at this index is to have, where the handler says it.
pub(crate) fn wanted_kind(handler: &Json, index: usize) -> Option<Kind>
    ensures { result ≡ spec.wanted_kind (view handler.now) index }
{
    param_kind(params_in(handler)?.get(index)?)
}

/// Whether a handler takes so many arguments, as far as it says.
pub(crate) fn takes_count(handler: &Json, count: usize) -> bool
    ensures { result ≡ spec.takes_count (view handler.now) count }
{
    match params_in(handler) {
        Some(params) => params.len() == count,
        None => true,
    }
}

fn gives_named(name: &str) -> Option<Gives>
    ensures { result ≡ spec.gives_named name.now }
{
    if name == "none" {
        return Some(Gives::Nothing);
    }
    match kind_named(name) {
        Some(kind) => Some(Gives::Value(kind)),
        None => None,
    }
}

/// What this document says that a handler gives.
pub(crate) fn gives_in(json: &Json) -> Option<Gives>
    ensures { result ≡ spec.gives_in (view json.now) }
{
    gives_named(json.as_str()?)
}

/// What a handler gives; anything where it does not say it.
pub(crate) fn handler_gives(handler: &Json) -> Gives
    ensures { result ≡ spec.handler_gives (view handler.now) }
{
    match handler.get("gives") {
        Some(json) => match gives_in(json) {
            Some(gives) => gives,
            None => Gives::Anything,
        },
        None => Gives::Anything,
    }
}

/// The sort of what is given, where a value is.
pub(crate) fn sort_given(gives: Gives) -> Option<Sort>
    ensures { result ≡ spec.sort_given gives }
{
    match gives {
        Gives::Anything => Some(Sort::Unknown),
        Gives::Nothing => None,
        Gives::Value(kind) => Some(sort_of_kind(kind)),
    }
}
