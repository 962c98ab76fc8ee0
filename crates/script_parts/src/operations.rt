//! Operations on objects. A call fails with the first fault in what it reads, or out of memory.
ghost use Rattle.std.specs.Prelude.{◌≡◌, Some, None, MatchOption, option_map};
ghost use Rattle.values.specs.Fields.{field_value};
ghost use Rattle.serde_json.specs.View.{view, items_view};
ghost use Rattle.values.specs.Tags.{tag_kind};
ghost use Rattle.script_model.specs.Reading.{Answers};
ghost use Rattle.script_model.specs.Scopes.{sort_of_kind};
ghost use Rattle.script_model.specs.ExpressionReading.{int_expr, expr_of_kind};
ghost use Rattle.script_model.specs.OperationReading as spec;
ghost use Rattle.script_parts.specs.Places.{pointer, AnswersBy};

use crate::expressions::{expr_of_kind, int_expr};
use crate::place::Place;
use crate::scope::Scope;
use crate::shapes::{int, string};
use script_model::{FaultKind, Form, OpName, Operation, ScriptFault, Sort};
use serde_json::Value as Json;
use std::alloc::Global;
use values::{Content, Field, Identifier, Kind, Record, Tag, Variant};

/// An operation, and the sort of its reply where that is a value.
type Typed = (Operation, Option<Sort>);

/// The arguments of an operation, where they stand, and the variables that they may name.
#[derive(Clone, Copy)]
struct Arguments<'a, 'j> {
    alloc: Global,
    /// The place of the list in which the object and the name stand first.
    place: &'a Place<'a>,
    scope: &'a Scope<'j>,
    documents: &'a [Json],
}

/// The sort of a variable that holds a value of this kind.
pub fn sort_of_kind(kind: Kind) -> Sort
    ensures { result ≡ sort_of_kind kind }
{
    match kind {
        Kind::Int => Sort::Int,
        Kind::Text => Sort::Text,
    }
}

fn count_of(form: Form) -> usize
    ensures { result ≡ spec.count_of form }
{
    match form {
        Form::Nothing => 0,
        Form::Word | Form::Index | Form::Value => 1,
        Form::WordValue | Form::IndexValue => 2,
    }
}

fn op_in(json: &Json) -> Option<OpName>
    ensures { result ≡ spec.op_in (view json.now) }
{
    OpName::read(json.as_str()?)
}

fn field_named<'r>(fields: &'r [Field], name: &str) -> Option<&'r Field>
    ensures { MatchOption result (field_value fields.now name.now ≡ None)
        (λ f. (f.now.name ≡ name.now) × (field_value fields.now name.now ≡ Some f.now.value)) }
{
    for field in fields {
        if field.name.as_str() == name {
            return Some(field);
        }
    }
    None
}

pub(crate) fn tag_named<'v>(tags: &'v [Tag], name: &str) -> Option<&'v Tag>
    ensures { MatchOption result (tag_kind tags.now name.now ≡ None)
        (λ t. (t.now.name ≡ name.now) × (tag_kind tags.now name.now ≡ Some t.now.kind)) }
{
    for tag in tags {
        if tag.name.as_str() == name {
            return Some(tag);
        }
    }
    None
}

impl Arguments<'_, '_> {
    fn document(&self, index: u8) -> Result<&Json, ScriptFault>
        ensures { AnswersBy (λ d. view d.now) (spec.argument_at index
            (items_view self.now.documents.now) (pointer self.now.place.now)) result }
    {
        match self.documents.get(index as usize) {
            Some(json) => Ok(json),
            None => Err(self.place.fault(self.alloc, FaultKind::Arguments)),
        }
    }

    fn int(&self, index: u8) -> Result<script_model::IntExpr, ScriptFault>
        ensures { Answers (spec.argument index (int_expr self.now.scope.now)
            (items_view self.now.documents.now) (pointer self.now.place.now)) result }
    {
        let json = self.document(index)?;
        int_expr(
            self.alloc,
            &self.place.item(index as usize + 2),
            self.scope,
            json,
        )
    }

    fn value(&self, index: u8, kind: Kind) -> Result<script_model::Expr, ScriptFault>
        ensures { Answers (spec.argument index (expr_of_kind kind self.now.scope.now)
            (items_view self.now.documents.now) (pointer self.now.place.now)) result }
    {
        let json = self.document(index)?;
        expr_of_kind(
            self.alloc,
            &self.place.item(index as usize + 2),
            self.scope,
            kind,
            json,
        )
    }

    /// The object does not have the operation.
    fn no_operation(&self) -> Result<Typed, ScriptFault>
        ensures { Answers (spec.no_operation (pointer self.now.place.now)) result }
    {
        Err(self.place.item(1).fault(self.alloc, FaultKind::Operation))
    }

    fn field(&self, object: &Record) -> Result<(Identifier, Kind), ScriptFault>
        ensures { Answers (spec.argument 0 (spec.known (spec.field_kind object.now))
            (items_view self.now.documents.now) (pointer self.now.place.now)) result }
    {
        let json = self.document(0)?;
        let place = self.place.item(2);
        let name = string(self.alloc, &place, json)?;
        match field_named(object.fields(), name) {
            Some(field) => Ok((field.name.copy()?, field.value.kind())),
            None => Err(place.fault(self.alloc, FaultKind::Operation)),
        }
    }

    fn tag(&self, variant: &Variant) -> Result<(Identifier, Kind), ScriptFault>
        ensures { Answers (spec.argument 0 (spec.known (tag_kind variant.now.tags))
            (items_view self.now.documents.now) (pointer self.now.place.now)) result }
    {
        let json = self.document(0)?;
        let place = self.place.item(2);
        let name = string(self.alloc, &place, json)?;
        match tag_named(variant.tags(), name) {
            Some(tag) => Ok((tag.name.copy()?, tag.kind)),
            None => Err(place.fault(self.alloc, FaultKind::Operation)),
        }
    }

    fn of_record(&self, object: &Record, name: OpName) -> Result<Typed, ScriptFault>
        ensures { Answers (spec.record_operation object.now self.now.scope.now name
            (items_view self.now.documents.now) (pointer self.now.place.now)) result }
    {
        match name {
            OpName::Get => {
                let (field, kind) = self.field(object)?;
                Ok((Operation::Get(field), Some(sort_of_kind(kind))))
            }
            OpName::Set => {
                let (field, kind) = self.field(object)?;
                let value = self.value(1, kind)?;
                Ok((Operation::Set(field, value), None))
            }
            _ => self.no_operation(),
        }
    }

    fn of_array(&self, kind: Kind, name: OpName) -> Result<Typed, ScriptFault>
        ensures { Answers (spec.array_operation kind self.now.scope.now name
            (items_view self.now.documents.now) (pointer self.now.place.now)) result }
    {
        match name {
            OpName::Low => Ok((Operation::Low, Some(Sort::Int))),
            OpName::High => Ok((Operation::High, Some(Sort::Int))),
            OpName::Size => Ok((Operation::Size, Some(Sort::Int))),
            OpName::Fetch => Ok((Operation::Fetch(self.int(0)?), Some(sort_of_kind(kind)))),
            OpName::Store => {
                let index = self.int(0)?;
                let value = self.value(1, kind)?;
                Ok((Operation::Store(index, value), None))
            }
            OpName::AddHigh => Ok((Operation::AddHigh(self.value(0, kind)?), None)),
            OpName::AddLow => Ok((Operation::AddLow(self.value(0, kind)?), None)),
            OpName::RemoveHigh => Ok((Operation::RemoveHigh, Some(sort_of_kind(kind)))),
            OpName::RemoveLow => Ok((Operation::RemoveLow, Some(sort_of_kind(kind)))),
            _ => self.no_operation(),
        }
    }

    fn of_variant(&self, variant: &Variant, name: OpName) -> Result<Typed, ScriptFault>
        ensures { Answers (spec.variant_operation variant.now self.now.scope.now name
            (items_view self.now.documents.now) (pointer self.now.place.now)) result }
    {
        match name {
            OpName::Is => {
                let (tag, _) = self.tag(variant)?;
                Ok((Operation::Is(tag), Some(Sort::Truth)))
            }
            OpName::ValueOf => {
                let (tag, kind) = self.tag(variant)?;
                Ok((Operation::ValueOf(tag), Some(sort_of_kind(kind))))
            }
            OpName::Change => {
                let (tag, kind) = self.tag(variant)?;
                let value = self.value(1, kind)?;
                Ok((Operation::Change(tag, value), None))
            }
            _ => self.no_operation(),
        }
    }

    fn of_counter(&self, name: OpName) -> Result<Typed, ScriptFault>
        ensures { Answers (spec.counter_operation self.now.scope.now name
            (items_view self.now.documents.now) (pointer self.now.place.now)) result }
    {
        match name {
            OpName::Total => Ok((Operation::Total, Some(Sort::Int))),
            OpName::Put => Ok((Operation::Put(self.value(0, Kind::Int)?), None)),
            OpName::Add => Ok((Operation::Add(self.value(0, Kind::Int)?), None)),
            _ => self.no_operation(),
        }
    }

    fn of_object(&self, content: &Content, name: OpName) -> Result<Typed, ScriptFault>
        ensures { Answers (spec.object_operation content.now self.now.scope.now name
            (items_view self.now.documents.now) (pointer self.now.place.now)) result }
    {
        match content {
            Content::Record(record) => self.of_record(record, name),
            Content::Array(array) => self.of_array(array.kind(), name),
            Content::Variant(variant) => self.of_variant(variant, name),
            Content::Counter(_) => self.of_counter(name),
        }
    }
}

/// The object of this number, which begins at 1.
fn object_numbered<'c>(
    alloc: Global,
    place: &Place<'_>,
    objects: &'c [Content],
    json: &Json,
) -> Result<(u32, &'c Content), ScriptFault>
    ensures { AnswersBy (λ p. (p.0, p.1.now))
        (spec.the_object_numbered objects.now (view json.now) (pointer place.now)) result }
{
    let number = int(alloc, place, json)?;
    if 1 <= number {
        if let Some(content) = objects.get(number as usize - 1) {
            return match u32::try_from(number) {
                Ok(number) => Ok((number, content)),
                Err(_) => Err(ScriptFault::Memory),
            };
        }
    }
    Err(place.fault(alloc, FaultKind::Object))
}

fn op_name(alloc: Global, place: &Place<'_>, json: &Json) -> Result<OpName, ScriptFault>
    ensures { Answers (spec.the_op_name (view json.now) (pointer place.now)) result }
{
    let name = string(alloc, place, json)?;
    place.need(alloc, OpName::read(name), FaultKind::Operation)
}

fn has_arity(name: Option<OpName>, count: usize) -> bool
    ensures { result ≡ spec.has_arity name count }
{
    match name {
        Some(name) => count == count_of(name.form()),
        None => true,
    }
}

/// The object, the name and the arguments, as they stand in an operation's list.
fn op_parts(json: &Json) -> Option<(&Json, &Json, &[Json])>
    ensures { option_map (λ p. (view p.0.now, view p.1.now, items_view p.2.now)) result
        ≡ spec.op_parts (view json.now) }
{
    match json.as_array()?.as_slice() {
        [object, name, documents @ ..] => Some((object, name, documents)),
        _ => None,
    }
}

/// An operation on an object, with the object's number, and the sort of its reply if it gives a
/// value. Fails with `Shape` if it is no operation, and with `Arguments` if it has too few or too
/// many. Fails with `Object` if there is no such object, and with `Operation` if the object has no
/// such operation, field or tag. Arguments fail as in `expr_of_kind`.
pub fn operation(
    alloc: Global,
    place: &Place<'_>,
    objects: &[Content],
    scope: &Scope<'_>,
    json: &Json,
) -> Result<(u32, Operation, Option<Sort>), ScriptFault>
    ensures { AnswersBy (λ p. (p.0, (p.1, p.2)))
        (spec.operation objects.now scope.now (view json.now) (pointer place.now)) result }
{
    let Some((object, name, documents)) = op_parts(json) else {
        return Err(place.fault(alloc, FaultKind::Shape));
    };
    let fits = has_arity(op_in(name), documents.len());
    place.ask(alloc, fits, FaultKind::Arguments)?;
    let (number, content) = object_numbered(alloc, &place.item(0), objects, object)?;
    let name = op_name(alloc, &place.item(1), name)?;
    let arguments = Arguments {
        alloc,
        place,
        scope,
        documents,
    };
    let (operation, sort) = arguments.of_object(content, name)?;
    Ok((number, operation, sort))
}

/// Whether no value comes back from the operation that has this name.
pub fn op_gives_nothing(json: &Json) -> bool
    ensures { result ≡ spec.op_gives_nothing (view json.now) }
{
    match op_parts(json) {
        Some((_, name, _)) => says_nothing(op_in(name)),
        None => false,
    }
}

fn says_nothing(name: Option<OpName>) -> bool
    ensures { result ≡ spec.says_nothing name }
{
    match name {
        Some(name) => !name.gives_value(),
        None => false,
    }
}
