//! Expressions and conditions. A call fails with the first fault in what it reads, or out of
//! memory.
ghost use Rattle.std.specs.Prelude.{◌≡◌, ◌≢◌, ◌||◌};
ghost use Rattle.serde_json.specs.View.{view};
ghost use Rattle.script_model.specs.Reading.{Answers};
ghost use Rattle.script_model.specs.Scopes.{find, agree, same_sort};
ghost use Rattle.script_model.specs.ExpressionReading as spec;
ghost use Rattle.script_model.specs.ExpressionReading.{is_pair};
ghost use Rattle.script_parts.specs.Places.{pointer, AnswersBy};
ghost use Rattle.script_parts.specs.Scoping.{variable_of};

use crate::place::Place;
use crate::scope::{Scope, Variable};
use crate::shapes::{array, only_member, pair, string};
use script_model::{Condition, Expr, FaultKind, IntExpr, ScriptFault, Sort, TextExpr};
use serde_json::Value as Json;
use sqlite_items::Boxed;
use std::alloc::Global;
use values::{Kind, Text, ValueFault};

/// A text of at most 1,024 bytes.
pub(crate) fn short_text(alloc: Global, place: &Place<'_>, text: &str) -> Result<Text, ScriptFault>
    ensures { Answers (spec.short_text text.now (pointer place.now)) result }
{
    match Text::new(alloc, text) {
        Ok(short) => Ok(short),
        Err(ValueFault::Unfit) => Err(place.fault(alloc, FaultKind::Limit)),
        Err(ValueFault::Memory) => Err(ScriptFault::Memory),
    }
}

fn is_pair(json: &Json) -> bool
    ensures { result ≡ spec.is_pair (view json.now) }
{
    match json.as_array() {
        Some(items) => items.len() == 2,
        None => false,
    }
}

fn sort_of_variable(scope: &Scope<'_>, json: &Json) -> Sort
    ensures { result ≡ spec.sort_of_variable scope.now (view json.now) }
{
    match json.as_str() {
        Some(name) => match scope.find(name) {
            Some(variable) => variable.sort,
            None => Sort::Unknown,
        },
        None => Sort::Unknown,
    }
}

/// Whether it names a sum or a difference.
fn is_sum(name: &str) -> bool
    ensures { result ≡ spec.is_sum name.now }
{
    name == "add" || name == "sub"
}

fn sort_of_member(scope: &Scope<'_>, name: &str, json: &Json) -> Sort
    ensures { result ≡ spec.sort_of_member scope.now name.now (view json.now) }
{
    if name == "var" {
        sort_of_variable(scope, json)
    } else if is_sum(name) && is_pair(json) {
        Sort::Int
    } else {
        Sort::Unknown
    }
}

/// The sort of an expression, as it shows before its parts are read.
pub fn sort_of(scope: &Scope<'_>, json: &Json) -> Sort
    ensures { result ≡ spec.sort_of scope.now (view json.now) }
{
    match json {
        Json::Number(number) => match number.as_i64() {
            Some(_) => Sort::Int,
            None => Sort::Unknown,
        },
        Json::String(_) => Sort::Text,
        _ => match only_member(json) {
            Some((name, inner)) => sort_of_member(scope, name, inner),
            None => Sort::Unknown,
        },
    }
}

/// The variable that `{"var": ..}` names.
fn variable(
    alloc: Global,
    place: &Place<'_>,
    scope: &Scope<'_>,
    json: &Json,
) -> Result<Variable, ScriptFault>
    ensures { AnswersBy variable_of
        (spec.variable scope.now (view json.now) (pointer place.now)) result }
{
    let name = string(alloc, &place.member("var"), json)?;
    match scope.find(name) {
        Some(variable) => Ok(variable),
        None => Err(place.fault(alloc, FaultKind::Unbound)),
    }
}

fn int_variable(
    alloc: Global,
    place: &Place<'_>,
    scope: &Scope<'_>,
    json: &Json,
) -> Result<IntExpr, ScriptFault>
    ensures { Answers (spec.int_variable scope.now (view json.now) (pointer place.now)) result }
{
    let variable = variable(alloc, place, scope, json)?;
    match variable.sort {
        Sort::Int => Ok(IntExpr::Variable(variable.place)),
        Sort::Unknown => Ok(IntExpr::Literal(0)),
        Sort::Text | Sort::Truth => Err(place.fault(alloc, FaultKind::Kind)),
    }
}

fn text_variable(
    alloc: Global,
    place: &Place<'_>,
    scope: &Scope<'_>,
    json: &Json,
) -> Result<TextExpr, ScriptFault>
    ensures { Answers (spec.text_variable scope.now (view json.now) (pointer place.now)) result }
{
    let variable = variable(alloc, place, scope, json)?;
    match variable.sort {
        Sort::Text => Ok(TextExpr::Variable(variable.place)),
        Sort::Unknown => Ok(TextExpr::Literal(short_text(alloc, place, "")?)),
        Sort::Int | Sort::Truth => Err(place.fault(alloc, FaultKind::Kind)),
    }
}

fn truth_variable(
    alloc: Global,
    place: &Place<'_>,
    scope: &Scope<'_>,
    json: &Json,
) -> Result<Condition, ScriptFault>
    ensures { Answers (spec.truth_variable scope.now (view json.now) (pointer place.now)) result }
{
    let variable = variable(alloc, place, scope, json)?;
    match variable.sort {
        Sort::Truth => Ok(Condition::Truth(variable.place)),
        Sort::Unknown => Ok(Condition::Less(IntExpr::Literal(0), IntExpr::Literal(0))),
        Sort::Int | Sort::Text => Err(place.fault(alloc, FaultKind::Kind)),
    }
}

/// An expression that is to give an int.
#[cycle(int_expr)]
pub(crate) fn int_expr(
    alloc: Global,
    place: &Place<'_>,
    scope: &Scope<'_>,
    json: &Json,
) -> Result<IntExpr, ScriptFault>
    ensures { Answers (spec.int_expr scope.now (view json.now) (pointer place.now)) result }
{
    match json {
        Json::Number(number) => match number.as_i64() {
            Some(number) => Ok(IntExpr::Literal(number)),
            None => Err(place.fault(alloc, FaultKind::Shape)),
        },
        Json::String(_) => Err(place.fault(alloc, FaultKind::Kind)),
        _ => match only_member(json) {
            Some((name, inner)) => int_member(alloc, place, scope, name, inner),
            None => Err(place.fault(alloc, FaultKind::Shape)),
        },
    }
}

#[cycle(int_expr)]
fn int_member(
    alloc: Global,
    place: &Place<'_>,
    scope: &Scope<'_>,
    name: &str,
    json: &Json,
) -> Result<IntExpr, ScriptFault>
    ensures { Answers (spec.int_member scope.now name.now (view json.now) (pointer place.now))
        result }
{
    if name == "var" {
        int_variable(alloc, place, scope, json)
    } else if name == "add" {
        let (x, y) = int_operands(alloc, &(&*place).member("add"), scope, json)?;
        Ok(IntExpr::Sum(Boxed::new(alloc, x)?, Boxed::new(alloc, y)?))
    } else if name == "sub" {
        let (x, y) = int_operands(alloc, &(&*place).member("sub"), scope, json)?;
        Ok(IntExpr::Difference(Boxed::new(alloc, x)?, Boxed::new(alloc, y)?))
    } else {
        Err(place.fault(alloc, FaultKind::Shape))
    }
}

#[cycle(int_expr)]
fn int_operands(
    alloc: Global,
    place: &Place<'_>,
    scope: &Scope<'_>,
    json: &Json,
) -> Result<(IntExpr, IntExpr), ScriptFault>
    ensures { Answers (spec.int_operands scope.now (view json.now) (pointer place.now)) result }
{
    let (first, second) = pair(alloc, place, json)?;
    let x = int_expr(alloc, &(&*place).item(0), scope, first)?;
    let y = int_expr(alloc, &(&*place).item(1), scope, second)?;
    Ok((x, y))
}

/// An expression that is to give a text.
pub(crate) fn text_expr(
    alloc: Global,
    place: &Place<'_>,
    scope: &Scope<'_>,
    json: &Json,
) -> Result<TextExpr, ScriptFault>
    ensures { Answers (spec.text_expr scope.now (view json.now) (pointer place.now)) result }
{
    match json {
        Json::String(text) => Ok(TextExpr::Literal(short_text(alloc, place, text.as_str())?)),
        Json::Number(number) => match number.as_i64() {
            Some(_) => Err(place.fault(alloc, FaultKind::Kind)),
            None => Err(place.fault(alloc, FaultKind::Shape)),
        },
        _ => match only_member(json) {
            Some((name, inner)) => text_member(alloc, place, scope, name, inner),
            None => Err(place.fault(alloc, FaultKind::Shape)),
        },
    }
}

fn text_member(
    alloc: Global,
    place: &Place<'_>,
    scope: &Scope<'_>,
    name: &str,
    json: &Json,
) -> Result<TextExpr, ScriptFault>
    ensures { Answers (spec.text_member scope.now name.now (view json.now) (pointer place.now))
        result }
{
    if name == "var" {
        text_variable(alloc, place, scope, json)
    } else if name == "add" {
        Err(no_text(alloc, place, &(&*place).member("add"), json))
    } else if name == "sub" {
        Err(no_text(alloc, place, &(&*place).member("sub"), json))
    } else {
        Err(place.fault(alloc, FaultKind::Shape))
    }
}

/// A sum stands where a text is wanted, or something that is no sum either.
fn no_text(alloc: Global, place: &Place<'_>, inside: &Place<'_>, operands: &Json) -> ScriptFault
    ensures { result ≢ ScriptFault.Memory → result
        ≡ spec.no_text (is_pair (view operands.now)) (pointer place.now) (pointer inside.now) }
{
    if is_pair(operands) {
        place.fault(alloc, FaultKind::Kind)
    } else {
        inside.fault(alloc, FaultKind::Shape)
    }
}

/// An expression that is to give a value of this kind. Fails with `Kind` if it gives one of the
/// other kind, and with `Unbound` if it names a variable that is not bound. Fails with `Shape` if
/// it is no expression, and with `Limit` if a text is too long.
pub fn expr_of_kind(
    alloc: Global,
    place: &Place<'_>,
    scope: &Scope<'_>,
    kind: Kind,
    json: &Json,
) -> Result<Expr, ScriptFault>
    ensures { Answers (spec.expr_of_kind kind scope.now (view json.now) (pointer place.now))
        result }
{
    match kind {
        Kind::Int => Ok(Expr::Int(int_expr(alloc, place, scope, json)?)),
        Kind::Text => Ok(Expr::Text(text_expr(alloc, place, scope, json)?)),
    }
}

/// An expression that may give a value of either kind: of a text if it shows itself as one, and
/// else of an int. Fails as `expr_of_kind`.
pub fn value_expr(
    alloc: Global,
    place: &Place<'_>,
    scope: &Scope<'_>,
    json: &Json,
) -> Result<Expr, ScriptFault>
    ensures { Answers (spec.value_expr scope.now (view json.now) (pointer place.now)) result }
{
    match sort_of(scope, json) {
        Sort::Text => expr_of_kind(alloc, place, scope, Kind::Text, json),
        _ => expr_of_kind(alloc, place, scope, Kind::Int, json),
    }
}

/// Whether what has one sort may stand where the other is wanted: also where one is unknown.
pub fn agree(one: Sort, other: Sort) -> bool
    ensures { result ≡ agree one other }
{
    one == other || one == Sort::Unknown || other == Sort::Unknown
}

/// Whether one of both shows itself as a text.
fn is_of_texts(one: Sort, other: Sort) -> bool
    ensures { result ≡ (same_sort one Sort.Text || same_sort other Sort.Text) }
{
    one == Sort::Text || other == Sort::Text
}

fn same_texts(
    alloc: Global,
    place: &Place<'_>,
    scope: &Scope<'_>,
    first: &Json,
    second: &Json,
) -> Result<Condition, ScriptFault>
    ensures { Answers
        (spec.same_texts scope.now (view first.now, view second.now) (pointer place.now))
        result }
{
    let x = text_expr(alloc, &(&*place).item(0), scope, first)?;
    let y = text_expr(alloc, &(&*place).item(1), scope, second)?;
    Ok(Condition::SameTexts(x, y))
}

fn same_ints(
    alloc: Global,
    place: &Place<'_>,
    scope: &Scope<'_>,
    first: &Json,
    second: &Json,
) -> Result<Condition, ScriptFault>
    ensures { Answers
        (spec.same_ints scope.now (view first.now, view second.now) (pointer place.now))
        result }
{
    let x = int_expr(alloc, &(&*place).item(0), scope, first)?;
    let y = int_expr(alloc, &(&*place).item(1), scope, second)?;
    Ok(Condition::SameInts(x, y))
}

fn equal(
    alloc: Global,
    place: &Place<'_>,
    scope: &Scope<'_>,
    json: &Json,
) -> Result<Condition, ScriptFault>
    ensures { Answers (spec.equal scope.now (view json.now) (pointer place.now)) result }
{
    let inside = place.member("eq");
    let (first, second) = pair(alloc, &inside, json)?;
    let one = sort_of(scope, first);
    let other = sort_of(scope, second);
    place.ask(alloc, agree(one, other), FaultKind::Kind)?;
    if is_of_texts(one, other) {
        same_texts(alloc, &inside, scope, first, second)
    } else {
        same_ints(alloc, &inside, scope, first, second)
    }
}

fn less(
    alloc: Global,
    place: &Place<'_>,
    scope: &Scope<'_>,
    json: &Json,
) -> Result<Condition, ScriptFault>
    ensures { Answers (spec.less scope.now (view json.now) (pointer place.now)) result }
{
    let (x, y) = int_operands(alloc, &place.member("lt"), scope, json)?;
    Ok(Condition::Less(x, y))
}

fn condition_member(
    alloc: Global,
    place: &Place<'_>,
    scope: &Scope<'_>,
    name: &str,
    json: &Json,
) -> Result<Condition, ScriptFault>
    ensures { Answers (spec.condition_member scope.now name.now (view json.now) (pointer place.now))
        result }
{
    if name == "var" {
        truth_variable(alloc, place, scope, json)
    } else if name == "eq" {
        equal(alloc, place, scope, json)
    } else if name == "lt" {
        less(alloc, place, scope, json)
    } else {
        Err(place.fault(alloc, FaultKind::Shape))
    }
}

/// What an `if` asks. Fails with `Shape` if it is no condition, and with `Kind` if what it compares
/// is of two kinds. Its expressions fail as in `expr_of_kind`.
pub fn condition(
    alloc: Global,
    place: &Place<'_>,
    scope: &Scope<'_>,
    json: &Json,
) -> Result<Condition, ScriptFault>
    ensures { Answers (spec.condition scope.now (view json.now) (pointer place.now)) result }
{
    match only_member(json) {
        Some((name, inner)) => condition_member(alloc, place, scope, name, inner),
        None => Err(place.fault(alloc, FaultKind::Shape)),
    }
}
