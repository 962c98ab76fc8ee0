ghost use Rattle.std.specs.Prelude.{◌≡◌, ◌+◌, ◌++◌, ◌<◌, ◌^◌, [], ◌∷◌, length, OnOk};
ghost use Rattle.serde_json.specs.View.{view, items_view, members_view};
ghost use Rattle.values.specs.Words.{IsIdentifier};
ghost use Rattle.script_model.specs.Reading.{Answers};
ghost use Rattle.script_model.specs.StatementReading.{guardian_index};
ghost use Rattle.script_model.specs.ScriptReading as spec;
ghost use Rattle.script_parts.specs.Places.{pointer, AnswersBy};
ghost use Rattle.script.specs.Contexts.{context_of};
ghost use Rattle.script.specs.Handling.{documents_of};
ghost use Rattle.script.specs.Sites.{site_of, AnswersOnto, guardians_of};

use crate::endings::may_lack_value;
use crate::signatures::{Handlers, MAX_HANDLERS, gives_in};
use crate::statements::{Context, guardian, name};
use limits::{MAX_GUARDIANS, MAX_OBJECTS};
use script_model::{Checked, Client, FaultKind, Gives, Handler, ScriptFault, Sort};
use script_parts::contents::{content, identifier};
use script_parts::names::are_named;
use script_parts::operations::sort_of_kind;
use script_parts::shapes::{kind_in, list, object, pair, three_members, two_members};
use script_parts::{Place, Scope};
use serde_json::{Map, Value as Json};
use sqlite_items::Items;
use std::alloc::Global;
use values::{Content, Kind};

/// How many parameters a handler has at most.
const MAX_PARAMS: usize = 8;

/// How many clients a script has at most.
const MAX_CLIENTS: usize = 64;

/// A guardian while its handlers are read.
#[derive(Clone, Copy)]
struct Site<'a, 'j> {
    alloc: Global,
    /// Its number, from 1.
    guardian: u32,
    objects: &'a [Content],
    handlers: &'a Handlers<'j>,
}

fn is_repeated(scope: &Scope<'_>, json: &Json) -> bool
    ensures { result ≡ spec.is_repeated_in scope.now (view json.now) }
{
    match json.as_str() {
        Some(name) => scope.find(name).is_some(),
        None => false,
    }
}

fn add_parameter<'j>(
    alloc: Global,
    place: &Place<'_>,
    scope: &mut Scope<'j>,
    json: &'j Json,
) -> Result<(), ScriptFault>
    ensures { AnswersBy (λ _. scope.new)
        (spec.parameter scope.old (view json.now) (pointer place.now)) result }
{
    let (first, second) = pair(alloc, place, json)?;
    place.ask(alloc, !is_repeated(scope, first), FaultKind::Shape)?;
    let name = name(alloc, &place.item(0), first)?;
    let kind = place
        .item(1)
        .need(alloc, kind_in(second), FaultKind::Shape)?;
    scope.bind(name, sort_of_kind(kind))?;
    Ok(())
}

fn parameters<'j>(
    alloc: Global,
    place: &Place<'_>,
    json: &'j Json,
) -> Result<Scope<'j>, ScriptFault>
    ensures { Answers (spec.parameters (view json.now) (pointer place.now)) result }
{
    let documents = list(alloc, place, json, 0, MAX_PARAMS)?;
    let mut scope = Scope::new(alloc);
    for (i, document) in documents.iter().enumerate() {
        add_parameter(alloc, &(&*place).item(i), &mut scope, document)?;
    }
    Ok(scope)
}

fn kind_given(gives: Gives) -> Option<Kind>
    ensures { result ≡ spec.kind_given gives }
{
    match gives {
        Gives::Value(kind) => Some(kind),
        Gives::Anything | Gives::Nothing => None,
    }
}

impl<'a, 'j> Site<'a, 'j> {
    fn context(self, gives: Gives) -> Context<'a, 'j>
        ensures { context_of result ≡ spec.context_at (site_of self.entry) gives }
    {
        Context {
            alloc: self.alloc,
            objects: self.objects,
            handlers: self.handlers,
            gives,
            in_top: false,
        }
    }

    /// The handler of this name, which is the one of this number in the script.
    fn handler(
        self,
        number: usize,
        place: &Place<'_>,
        name: &str,
        json: &'j Json,
    ) -> Result<Handler, ScriptFault>
        requires { IsIdentifier name.now }
        ensures { Answers
            (spec.handler (site_of self.entry) number name.now (view json.now) (pointer place.now))
            result }
    {
        let (params, gives, body) = three_members(
            self.alloc,
            place,
            json,
            ["params", "gives", "body"],
        )?;
        place.ask(self.alloc, number < MAX_HANDLERS as usize, FaultKind::Limit)?;
        let lacks = may_lack_value(gives_in(gives), body);
        place.ask(self.alloc, !lacks, FaultKind::Flow)?;
        let mut scope = parameters(self.alloc, &place.member("params"), params)?;
        let ints = scope.count(Sort::Int);
        let texts = scope.count(Sort::Text);
        let inside = place.member("gives");
        let gives = inside.need(self.alloc, gives_in(gives), FaultKind::Shape)?;
        let context = self.context(gives);
        let body = context.body(&place.member("body"), &mut scope, body)?;
        Ok(Handler {
            name: identifier(self.alloc, name)?,
            guardian: self.guardian,
            ints,
            texts,
            gives: kind_given(gives),
            body,
        })
    }

    /// Adds this guardian's handlers to those of the guardians before it.
    fn add_handlers(
        self,
        place: &'j Place<'j>,
        json: &'j Json,
        handlers: &mut Items<Handler>,
    ) -> Result<(), ScriptFault>
        ensures { AnswersOnto handlers.old handlers.new
            (spec.handlers (site_of self.entry) (length handlers.old) (view json.now)
            (pointer place.now))
            result }
    {
        let members = object(self.alloc, place, json)?;
        place.ask(self.alloc, are_named(members), FaultKind::Shape)?;
        for (name, document) in members.iter() {
            let name = name.as_str();
            let handler = self.handler(handlers.len(), &place.member(name), name, document)?;
            handlers.push(handler)?;
        }
        Ok(())
    }
}

fn objects_in(alloc: Global, place: &Place<'_>, json: &Json) -> Result<Items<Content>, ScriptFault>
    ensures { Answers (spec.objects (view json.now) (pointer place.now)) result }
{
    let documents = list(alloc, place, json, 0, MAX_OBJECTS)?;
    let mut contents = Items::new(alloc);
    for (i, document) in documents.iter().enumerate() {
        contents.push(content(alloc, &place.item(i), document)?)?;
    }
    Ok(contents)
}

/// What guardians have: the objects of each, and the handlers of all.
#[derive(Drop)]
struct Guardians {
    objects: Items<Items<Content>>,
    handlers: Items<Handler>,
}

impl Guardians {
    /// Adds the guardian of this number.
    fn add<'j>(
        &mut self,
        alloc: Global,
        place: &Place<'_>,
        documents: &Handlers<'j>,
        number: u32,
        json: &'j Json,
    ) -> Result<(), ScriptFault>
        ensures { AnswersBy (λ _. guardians_of self.new)
            (spec.add_guardian (documents_of documents.now) number (guardians_of self.old)
            (view json.now) (pointer place.now))
            result }
    {
        let (contents, handlers) = two_members(alloc, place, json, "objects", "handlers")?;
        let contents = objects_in(alloc, &place.member("objects"), contents)?;
        let site = Site {
            alloc,
            guardian: number,
            objects: contents.as_slice(),
            handlers: documents,
        };
        site.add_handlers(&place.member("handlers"), handlers, &mut self.handlers)?;
        self.objects.push(contents)?;
        Ok(())
    }
}

fn guardians_in<'j>(
    alloc: Global,
    place: &Place<'_>,
    signatures: &Handlers<'j>,
) -> Result<Guardians, ScriptFault>
    ensures { AnswersBy guardians_of
        (spec.guardians_in (documents_of signatures.now) (documents_of signatures.now)
        (pointer place.now))
        result }
{
    let mut guardians = Guardians {
        objects: Items::new(alloc),
        handlers: Items::new(alloc),
    };
    let documents = signatures.documents();
    for (i, document) in documents.iter().enumerate() {
        let number = signatures.number(i);
        guardians.add(alloc, &(&*place).item(i), signatures, number, document)?;
    }
    Ok(guardians)
}

/// The objects of the guardian of this index.
fn objects_of(objects: &[Items<Content>], index: usize) -> &[Content]
    ensures { result.now ≡ spec.objects_of objects.now index }
{
    match objects.get(index) {
        Some(contents) => contents.as_slice(),
        None => &[],
    }
}

fn client_in<'j>(
    alloc: Global,
    place: &Place<'_>,
    objects: &[Items<Content>],
    handlers: &Handlers<'j>,
    json: &'j Json,
) -> Result<Client, ScriptFault>
    ensures { Answers
        (spec.client (documents_of handlers.now) objects.now (view json.now) (pointer place.now))
        result }
{
    let (home, body) = two_members(alloc, place, json, "home", "body")?;
    let index = guardian(alloc, &place.member("home"), handlers.guardians(), home)?;
    let site = Site {
        alloc,
        guardian: handlers.number(index),
        objects: objects_of(objects, index),
        handlers,
    };
    let mut scope = Scope::new(alloc);
    let context = site.context(Gives::Anything);
    let body = context.body(&place.member("body"), &mut scope, body)?;
    Ok(Client {
        home: site.guardian,
        body,
    })
}

fn clients_in<'j>(
    alloc: Global,
    place: &Place<'_>,
    objects: &[Items<Content>],
    handlers: &Handlers<'j>,
    json: &'j Json,
) -> Result<Items<Client>, ScriptFault>
    ensures { Answers
        (spec.clients (documents_of handlers.now) objects.now (view json.now) (pointer place.now))
        result }
{
    let documents = list(alloc, place, json, 1, MAX_CLIENTS)?;
    let mut clients = Items::new(alloc);
    for (i, document) in documents.iter().enumerate() {
        clients.push(client_in(alloc, &place.item(i), objects, handlers, document)?)?;
    }
    Ok(clients)
}

/// A script, but for handlers that can reach themselves.
pub(crate) fn script(alloc: Global, json: &Json) -> Result<Checked, ScriptFault>
    ensures { Answers (spec.script (view json.now) []) result }
{
    let root = Place::Root;
    let (first, second) = two_members(alloc, &root, json, "guardians", "clients")?;
    let above = root.member("guardians");
    let documents = list(alloc, &above, first, 1, MAX_GUARDIANS)?;
    let handlers = Handlers::new(alloc, documents)?;
    let guardians = guardians_in(alloc, &above, &handlers)?;
    let below = root.member("clients");
    let clients = clients_in(
        alloc,
        &below,
        guardians.objects.as_slice(),
        &handlers,
        second,
    )?;
    Ok(Checked {
        guardians: guardians.objects,
        handlers: guardians.handlers,
        clients,
    })
}
