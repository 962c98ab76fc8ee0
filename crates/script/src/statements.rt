ghost use Rattle.std.specs.Prelude.{◌≡◌, ℕ, map, List, ◌++◌, ◌<◌, ◌^◌, option_map, is_some, IfOk, OnOk, IfSome};
ghost use Rattle.serde_json.specs.Find.{get_member};
ghost use Rattle.serde_json.specs.View.{view, items_view, members_view};
ghost use Rattle.serde_json.specs.Events.{items_len};
ghost use Rattle.script_model.specs.Reading.{Answers, at, ask};
ghost use Rattle.script_model.specs.Scopes as scopes;
ghost use Rattle.script_model.specs.Signatures.{sort_given, wanted_kind};
ghost use Rattle.script_model.specs.Shapes.{has_only};
ghost use Rattle.script_model.specs.StatementReading as spec;
ghost use Rattle.script_model.specs.StatementReading.{body_at};
ghost use Rattle.script_parts.specs.Places.{pointer, AnswersBy};
ghost use Rattle.script_parts.specs.Scoping.{variable_of};
ghost use Rattle.script.specs.Contexts.{context_of, Extends, AnswersWith, call_of, arguments_of};

use crate::signatures::{Handlers, handler_gives, sort_given, takes_count, wanted_kind};
use limits::MAX_ARMS;
use script_model::{
    Arm, Binding, Expr, FaultKind, Gives, HandlerCall, IntExpr, ObjectCall, ScriptFault, Sort,
    Statement, TextExpr,
};
use script_parts::expressions::{agree, condition, expr_of_kind, sort_of, value_expr};
use script_parts::operations::{op_gives_nothing, operation, sort_of_kind};
use script_parts::shapes::{
    array, has_only, int, list, member, object, pair, string, triple, two_members,
};
use script_parts::{Place, Scope, Variable};
use serde_json::{Map, Value as Json};
use sqlite_items::Items;
use std::alloc::Global;
use values::{Content, is_identifier};

/// How often a `repeat` turns at most.
const MAX_TURNS: i64 = 65536;

/// How deep bodies nest at most.
const MAX_NESTING: u32 = 16;

/// What holds throughout a body.
#[derive(Clone, Copy)]
pub(crate) struct Context<'a, 'j> {
    pub(crate) alloc: Global,
    /// The objects of the guardian where it runs.
    pub(crate) objects: &'a [Content],
    pub(crate) handlers: &'a Handlers<'j>,
    /// What the body may return.
    pub(crate) gives: Gives,
    /// Whether it stands in a nested top action.
    pub(crate) in_top: bool,
}

fn binding_of(sort: Sort, place: Option<u32>) -> Binding
    ensures { result ≡ scopes.binding_of sort place }
{
    match sort {
        Sort::Int => Binding::Int(place),
        Sort::Text => Binding::Text(place),
        Sort::Truth => Binding::Truth(place),
        Sort::Unknown => Binding::Nothing,
    }
}

fn binding_again(sort: Sort, variable: Variable) -> Binding
    ensures { result ≡ scopes.binding_again sort (variable_of variable) }
{
    if variable.sort == Sort::Unknown {
        binding_of(sort, None)
    } else {
        binding_of(sort, Some(variable.place))
    }
}

/// The index of the guardian of this number, which begins at 1.
pub(crate) fn guardian(
    alloc: Global,
    place: &Place<'_>,
    count: usize,
    json: &Json,
) -> Result<usize, ScriptFault>
    ensures { AnswersBy (λ n. n)
        (spec.guardian_numbered count (view json.now) (pointer place.now)) result }
{
    let number = int(alloc, place, json)?;
    match guardian_index(count, number) {
        Some(index) => Ok(index),
        None => Err(place.fault(alloc, FaultKind::Guardian)),
    }
}

fn guardian_index(count: usize, number: i64) -> Option<usize>
    ensures value { result ≡ spec.guardian_index count number }
    ensures within { IfSome result (λ n. n < count) }
{
    if number < 1 {
        return None;
    }
    let index = number as usize - 1;
    if index < count { Some(index) } else { None }
}

/// A name that is to be defined.
pub(crate) fn name<'j>(
    alloc: Global,
    place: &Place<'_>,
    json: &'j Json,
) -> Result<&'j str, ScriptFault>
    ensures { AnswersBy (λ s. s.now) (spec.the_name (view json.now) (pointer place.now)) result }
{
    let name = string(alloc, place, json)?;
    place.ask(alloc, is_identifier(name), FaultKind::Shape)?;
    Ok(name)
}

fn arm_named(name: &str) -> Option<bool>
    ensures { result ≡ spec.arm_named name.now }
{
    if name == "sub" {
        Some(false)
    } else if name == "top" {
        Some(true)
    } else {
        None
    }
}

fn is_top_arm(json: &Json) -> Option<bool>
    ensures { result ≡ spec.is_top_arm (view json.now) }
{
    arm_named(json.as_str()?)
}

fn may_return(gives: Gives, sort: Sort) -> bool
    ensures { result ≡ spec.may_return gives sort }
{
    match gives {
        Gives::Anything => true,
        Gives::Nothing => false,
        Gives::Value(kind) => agree(sort_of_kind(kind), sort),
    }
}

fn may_return_nothing(gives: Gives) -> bool
    ensures { result ≡ spec.may_return_nothing gives }
{
    match gives {
        Gives::Value(_) => false,
        Gives::Anything | Gives::Nothing => true,
    }
}

fn turns_of(number: i64) -> Option<u32>
    ensures { result ≡ spec.turns_of number }
{
    if 0 <= number && number <= MAX_TURNS {
        Some(number as u32)
    } else {
        None
    }
}

impl<'a, 'j> Context<'a, 'j> {
    fn in_top_action(self) -> Context<'a, 'j>
        ensures { context_of result ≡ spec.in_top_action (context_of self.entry) }
    {
        Context {
            in_top: true,
            ..self
        }
    }

    /// Asks that nothing is bound where no value comes back.
    fn ask_value(
        &self,
        place: &Place<'_>,
        members: &Map<String, Json>,
        gives_nothing: bool,
    ) -> Result<(), ScriptFault>
        ensures { Answers
            (spec.ask_value (members_view members.now.entries) gives_nothing (pointer place.now))
            result }
    {
        let fits = !gives_nothing || member(members, "into").is_none();
        place.ask(self.alloc, fits, FaultKind::Flow)
    }

    /// Binds a reply of this sort by the `into` of a statement, where there is one.
    fn bind(
        &self,
        place: &Place<'_>,
        scope: &mut Scope<'j>,
        sort: Option<Sort>,
        members: &'j Map<String, Json>,
    ) -> Result<Binding, ScriptFault>
        ensures read { AnswersWith scope.new
            (spec.bind scope.old sort (members_view members.now.entries) (pointer place.now))
            result }
        ensures extends { OnOk result (Extends scope.old scope.new) }
    {
        let Some(sort) = sort else {
            return Ok(Binding::Nothing);
        };
        let Some(into) = member(members, "into") else {
            return Ok(binding_of(sort, None));
        };
        let place = (&*place).member("into");
        let name = name(self.alloc, &place, into)?;
        match scope.find(name) {
            Some(variable) => {
                place.ask(self.alloc, agree(variable.sort, sort), FaultKind::Rebound)?;
                Ok(binding_again(sort, variable))
            }
            None => {
                let may_signal = member(members, "signals").is_some();
                place.ask(self.alloc, !may_signal, FaultKind::Unbound)?;
                let bound = scope.bind(name, sort)?;
                Ok(binding_of(sort, Some(bound)))
            }
        }
    }

    fn arguments(
        &self,
        place: &Place<'_>,
        scope: &Scope<'_>,
        handler: &Json,
        json: &Json,
    ) -> Result<(Items<IntExpr>, Items<TextExpr>), ScriptFault>
        ensures { AnswersBy arguments_of
            (spec.arguments_in scope.now (view handler.now) (view json.now) (pointer place.now))
            result }
    {
        let documents = array(self.alloc, place, json)?;
        let fits = takes_count(handler, documents.len());
        place.ask(self.alloc, fits, FaultKind::Arguments)?;
        let mut ints = Items::new(self.alloc);
        let mut texts = Items::new(self.alloc);
        for (i, document) in documents.iter().enumerate() {
            match self.argument(&(&*place).item(i), scope, handler, i, document)? {
                Expr::Int(expr) => ints.push(expr)?,
                Expr::Text(expr) => texts.push(expr)?,
            }
        }
        Ok((ints, texts))
    }

    fn argument(
        &self,
        place: &Place<'_>,
        scope: &Scope<'_>,
        handler: &Json,
        index: usize,
        json: &Json,
    ) -> Result<Expr, ScriptFault>
        ensures { Answers (spec.argument_in scope.now (wanted_kind (view handler.now) index)
            (view json.now) (pointer place.now))
            result }
    {
        match wanted_kind(handler, index) {
            Some(kind) => expr_of_kind(self.alloc, place, scope, kind, json),
            None => value_expr(self.alloc, place, scope, json),
        }
    }

    /// The document of the handler that is called, where there is one.
    fn callee(&self, json: &Json) -> Option<&'j Json>
        ensures { option_map (λ d. view d.now) result
            ≡ spec.callee (context_of self.now).guardians (view json.now) }
    {
        match json.as_array()?.as_slice() {
            [number, name, _] => {
                let index = guardian_index(self.handlers.guardians(), number.as_i64()?)?;
                let (_, handler) = self.handlers.find(index, name.as_str()?)?;
                Some(handler)
            }
            _ => None,
        }
    }

    fn call_gives_nothing(&self, json: &Json) -> bool
        ensures { result ≡ spec.call_gives_nothing (context_of self.now).guardians (view json.now) }
    {
        match self.callee(json) {
            Some(handler) => sort_given(handler_gives(handler)).is_none(),
            None => false,
        }
    }

    /// A call, but for its binding, and the sort of its result, where that is a value.
    fn call(
        &self,
        place: &Place<'_>,
        scope: &Scope<'_>,
        json: &Json,
    ) -> Result<(HandlerCall, Option<Sort>), ScriptFault>
        ensures { AnswersBy call_of
            (spec.call_sorted (context_of self.now).guardians
            scope.now (view json.now) (pointer place.now))
            result }
    {
        let (number, name, arguments) = triple(self.alloc, place, json)?;
        let count = self.handlers.guardians();
        let index = guardian(self.alloc, &(&*place).item(0), count, number)?;
        let place_of_name = (&*place).item(1);
        let name = string(self.alloc, &place_of_name, name)?;
        let Some((handler, document)) = self.handlers.find(index, name) else {
            return Err(place_of_name.fault(self.alloc, FaultKind::Handler));
        };
        let (ints, texts) = self.arguments(&(&*place).item(2), scope, document, arguments)?;
        let call = HandlerCall {
            handler,
            ints,
            texts,
            binding: Binding::Nothing,
        };
        Ok((call, sort_given(handler_gives(document))))
    }

    fn abort(&self, place: &Place<'_>, json: &Json) -> Result<Statement, ScriptFault>
        ensures { Answers (spec.abort_in (view json.now) (pointer place.now)) result }
    {
        match json {
            Json::Bool(true) => Ok(Statement::Abort),
            _ => Err(place.fault(self.alloc, FaultKind::Shape)),
        }
    }

    fn return_value(
        &self,
        place: &Place<'_>,
        scope: &Scope<'_>,
        json: &Json,
    ) -> Result<Statement, ScriptFault>
        ensures { Answers
            (spec.return_in (context_of self.now) scope.now (view json.now) (pointer place.now))
            result }
    {
        if json.is_null() {
            let fits = !self.in_top && may_return_nothing(self.gives);
            place.ask(self.alloc, fits, FaultKind::Flow)?;
            return Ok(Statement::Return(None));
        }
        let fits = !self.in_top && may_return(self.gives, sort_of(scope, json));
        place.ask(self.alloc, fits, FaultKind::Flow)?;
        let value = value_expr(self.alloc, &(&*place).member("return"), scope, json)?;
        Ok(Statement::Return(Some(value)))
    }

    #[cycle(body)]
    fn signals(
        &self,
        levels: u32,
        place: &Place<'_>,
        scope: &mut Scope<'j>,
        members: &'j Map<String, Json>,
    ) -> Result<Option<Items<Statement>>, ScriptFault>
        ensures read { Answers
            (spec.signals (body_at levels)
            (context_of self.now) scope.old (members_view members.now.entries) (pointer place.now))
            result }
        ensures kept { OnOk result (scope.new ≡ scope.old) }
    {
        match member(members, "signals") {
            Some(json) => Ok(Some(self.body_at(
                levels,
                &(&*place).member("signals"),
                scope,
                json,
            )?)),
            None => Ok(None),
        }
    }

    #[cycle(body)]
    fn op_statement(
        &self,
        levels: u32,
        place: &Place<'_>,
        scope: &mut Scope<'j>,
        members: &'j Map<String, Json>,
        json: &'j Json,
    ) -> Result<Statement, ScriptFault>
        ensures read { AnswersWith scope.new
            (spec.op_statement (body_at levels) (context_of self.now) scope.old
            (members_view members.now.entries) (view json.now) (pointer place.now))
            result }
        ensures extends { OnOk result (Extends scope.old scope.new) }
    {
        self.ask_value(place, members, op_gives_nothing(json))?;
        let inside = (&*place).member("op");
        let (object, operation, sort) = operation(self.alloc, &inside, self.objects, scope, json)?;
        let binding = self.bind(place, scope, sort, members)?;
        let signals = self.signals(levels, place, scope, members)?;
        let call = ObjectCall {
            object,
            operation,
            binding,
        };
        Ok(Statement::Op(call, signals))
    }

    #[cycle(body)]
    fn call_statement(
        &self,
        levels: u32,
        place: &Place<'_>,
        scope: &mut Scope<'j>,
        members: &'j Map<String, Json>,
        json: &'j Json,
    ) -> Result<Statement, ScriptFault>
        ensures read { AnswersWith scope.new
            (spec.call_statement (body_at levels) (context_of self.now) scope.old
            (members_view members.now.entries) (view json.now) (pointer place.now))
            result }
        ensures extends { OnOk result (Extends scope.old scope.new) }
    {
        self.ask_value(place, members, self.call_gives_nothing(json))?;
        let (call, sort) = self.call(&(&*place).member("call"), scope, json)?;
        let binding = self.bind(place, scope, sort, members)?;
        let signals = self.signals(levels, place, scope, members)?;
        Ok(Statement::Call(HandlerCall { binding, ..call }, signals))
    }

    #[cycle(body)]
    fn arm(
        &self,
        levels: u32,
        place: &Place<'_>,
        scope: &mut Scope<'j>,
        json: &'j Json,
    ) -> Result<Arm, ScriptFault>
        ensures read { Answers (spec.arm_in (body_at levels) (context_of self.now) scope.old
            (view json.now) (pointer place.now))
            result }
        ensures kept { OnOk result (scope.new ≡ scope.old) }
    {
        let (arm, body) = two_members(self.alloc, place, json, "arm", "body")?;
        let inside = (&*place).member("arm");
        let is_top = inside.need(self.alloc, is_top_arm(arm), FaultKind::Shape)?;
        let below = (&*place).member("body");
        if is_top {
            let body = self.in_top_action().body_at(levels, &below, scope, body)?;
            return Ok(Arm::Top(body));
        }
        Ok(Arm::Sub(self.body_at(levels, &below, scope, body)?))
    }

    #[cycle(body)]
    fn coenter(
        &self,
        levels: u32,
        place: &Place<'_>,
        scope: &mut Scope<'j>,
        json: &'j Json,
    ) -> Result<Statement, ScriptFault>
        ensures read { Answers (spec.coenter (body_at levels)
            (context_of self.now) scope.old (view json.now) (pointer place.now))
            result }
        ensures kept { OnOk result (scope.new ≡ scope.old) }
    {
        let documents = list(self.alloc, place, json, 1, MAX_ARMS)?;
        let mut arms = Items::new(self.alloc);
        for (i, document) in documents.iter().enumerate() {
            arms.push(self.arm(levels, &(&*place).item(i), scope, document)?)?;
        }
        Ok(Statement::Coenter(arms))
    }

    #[cycle(body)]
    fn top_action(
        &self,
        levels: u32,
        place: &Place<'_>,
        scope: &mut Scope<'j>,
        members: &'j Map<String, Json>,
        json: &'j Json,
    ) -> Result<Statement, ScriptFault>
        ensures read { Answers
            (spec.top_action (body_at levels) (context_of self.now)
            scope.old (members_view members.now.entries) (view json.now) (pointer place.now))
            result }
        ensures kept { OnOk result (scope.new ≡ scope.old) }
    {
        let inside = (&*place).member("topaction");
        let body = self.in_top_action().body_at(levels, &inside, scope, json)?;
        let signals = match self.signals(levels, place, scope, members)? {
            Some(signals) => signals,
            None => Items::new(self.alloc),
        };
        Ok(Statement::TopAction(body, signals))
    }

    #[cycle(body)]
    fn branches(
        &self,
        levels: u32,
        place: &Place<'_>,
        scope: &mut Scope<'j>,
        json: &'j Json,
    ) -> Result<Statement, ScriptFault>
        ensures read { Answers (spec.if_in (body_at levels) (context_of self.now)
            scope.old (view json.now) (pointer place.now))
            result }
        ensures kept { OnOk result (scope.new ≡ scope.old) }
    {
        let (test, first, second) = triple(self.alloc, place, json)?;
        let test = condition(self.alloc, &(&*place).item(0), scope, test)?;
        let first = self.body_at(levels, &(&*place).item(1), scope, first)?;
        let second = self.body_at(levels, &(&*place).item(2), scope, second)?;
        Ok(Statement::If(test, first, second))
    }

    #[cycle(body)]
    fn turns(
        &self,
        levels: u32,
        place: &Place<'_>,
        scope: &mut Scope<'j>,
        json: &'j Json,
    ) -> Result<Statement, ScriptFault>
        ensures read { Answers
            (spec.repeat_in (body_at levels) (context_of self.now) scope.old
            (view json.now) (pointer place.now))
            result }
        ensures kept { OnOk result (scope.new ≡ scope.old) }
    {
        let (number, body) = pair(self.alloc, place, json)?;
        let above = (&*place).item(0);
        let number = int(self.alloc, &above, number)?;
        let turns = above.need(self.alloc, turns_of(number), FaultKind::Limit)?;
        let body = self.body_at(levels, &(&*place).item(1), scope, body)?;
        Ok(Statement::Repeat(turns, body))
    }

    fn only(
        &self,
        place: &Place<'_>,
        members: &Map<String, Json>,
        names: &[&str],
    ) -> Result<(), ScriptFault>
        ensures { Answers
            (ask (has_only (map (λ n. n.now) names.now) (members_view members.now.entries))
            FaultKind.Shape (pointer place.now))
            result }
    {
        place.ask(self.alloc, has_only(members, names), FaultKind::Shape)
    }

    #[cycle(body)]
    fn statement(
        &self,
        levels: u32,
        place: &Place<'_>,
        scope: &mut Scope<'j>,
        json: &'j Json,
    ) -> Result<Statement, ScriptFault>
        ensures read { AnswersWith scope.new
            (spec.statement (body_at levels) (context_of self.now) scope.old
            (view json.now) (pointer place.now))
            result }
        ensures extends { OnOk result (Extends scope.old scope.new) }
    {
        let members = object(self.alloc, place, json)?;
        if let Some(json) = member(members, "op") {
            self.only(place, members, &["op", "into", "signals"])?;
            return self.op_statement(levels, place, scope, members, json);
        }
        if let Some(json) = member(members, "call") {
            self.only(place, members, &["call", "into", "signals"])?;
            return self.call_statement(levels, place, scope, members, json);
        }
        if let Some(json) = member(members, "coenter") {
            self.only(place, members, &["coenter"])?;
            return self.coenter(levels, &(&*place).member("coenter"), scope, json);
        }
        if let Some(json) = member(members, "topaction") {
            self.only(place, members, &["topaction", "signals"])?;
            return self.top_action(levels, place, scope, members, json);
        }
        self.plain_statement(levels, place, scope, members)
    }

    #[cycle(body)]
    fn plain_statement(
        &self,
        levels: u32,
        place: &Place<'_>,
        scope: &mut Scope<'j>,
        members: &'j Map<String, Json>,
    ) -> Result<Statement, ScriptFault>
        ensures read { AnswersWith scope.new
            (spec.plain_statement (body_at levels) (context_of self.now)
            scope.old (members_view members.now.entries) (pointer place.now))
            result }
        ensures extends { OnOk result (Extends scope.old scope.new) }
    {
        if let Some(json) = member(members, "if") {
            self.only(place, members, &["if"])?;
            return self.branches(levels, &(&*place).member("if"), scope, json);
        }
        if let Some(json) = member(members, "repeat") {
            self.only(place, members, &["repeat"])?;
            return self.turns(levels, &(&*place).member("repeat"), scope, json);
        }
        if let Some(json) = member(members, "abort") {
            self.only(place, members, &["abort"])?;
            return self.abort(&(&*place).member("abort"), json);
        }
        if let Some(json) = member(members, "return") {
            self.only(place, members, &["return"])?;
            return self.return_value(place, scope, json);
        }
        Err(place.fault(self.alloc, FaultKind::Shape))
    }

    #[cycle(body)]
    fn statements(
        &self,
        levels: u32,
        place: &Place<'_>,
        scope: &mut Scope<'j>,
        documents: &'j [Json],
    ) -> Result<Items<Statement>, ScriptFault>
        ensures read { Answers
            (spec.statements (body_at levels) (context_of self.now) 0 scope.old
            (items_view documents.now) (pointer place.now))
            result }
        ensures extends { OnOk result (Extends scope.old scope.new) }
    {
        let mut body = Items::new(self.alloc);
        for (i, document) in documents.iter().enumerate() {
            body.push(self.statement(levels, &(&*place).item(i), scope, document)?)?;
        }
        Ok(body)
    }

    /// A body in which others may nest so deep, less one. What it binds newly is forgotten at its end.
    #[cycle(body)]
    fn body_at(
        &self,
        levels: u32,
        place: &Place<'_>,
        scope: &mut Scope<'j>,
        json: &'j Json,
    ) -> Result<Items<Statement>, ScriptFault>
        ensures read { Answers
            (body_at levels (context_of self.now) scope.old (view json.now) (pointer place.now))
            result }
        ensures kept { OnOk result (scope.new ≡ scope.old) }
    {
        let documents = array(self.alloc, place, json)?;
        if levels == 0 {
            return Err(place.fault(self.alloc, FaultKind::Limit));
        }
        let bound = scope.len();
        let body = self.statements(levels - 1, place, scope, documents)?;
        scope.forget_to(bound);
        Ok(body)
    }

    /// The body of a handler or a client.
    pub(crate) fn body(
        &self,
        place: &Place<'_>,
        scope: &mut Scope<'j>,
        json: &'j Json,
    ) -> Result<Items<Statement>, ScriptFault>
        ensures read { Answers
            (spec.body_in (context_of self.now) scope.old (view json.now) (pointer place.now))
            result }
        ensures kept { OnOk result (scope.new ≡ scope.old) }
    {
        self.body_at(MAX_NESTING, place, scope, json)
    }
}
