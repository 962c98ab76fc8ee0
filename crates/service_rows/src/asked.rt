//! The call that a row asks for.
use crate::came::Came;
use crate::reading::{kinds, name, object, small_number, small_numbers, value};
use crate::works::{FailingAtFirst, Items};
use rows::{Row, RowFault, Words};
use run_model::Op;
use service::{Retries, Service, change, get, is, set, value_of};
use std::alloc::Global;
use values::ValueFault;
use world::{PlainStable, World};

type Called = Service<World<PlainStable>>;

/// Makes the call, and gives what came of it.
pub(crate) fn ask(alloc: Global, service: &mut Called, row: &Row<'_>) -> Result<Came, RowFault> {
    let mut words = row.words();
    match row.call {
        "begin" => Came::began(service.begin(small_number(&mut words)?)),
        "begin_nested" => Came::began(service.begin_nested(&name(alloc, &mut words)?)),
        "call" => {
            let action = name(alloc, &mut words)?;
            Came::began(service.call(&action, small_number(&mut words)?))
        }
        "begin_arms" => {
            let action = name(alloc, &mut words)?;
            Came::began_these(service.begin_arms(&action, kinds(alloc, words)?))
        }
        "transact" => {
            let home = small_number(&mut words)?;
            let text = words.rest();
            Came::transacted(service.transact(alloc, home, &mut Items { alloc, text }))
        }
        "transact_with_retries" => {
            let retries = Retries::up_to(small_number(&mut words)?);
            let failures = small_number(&mut words)?;
            let home = small_number(&mut words)?;
            let text = words.rest();
            let mut work = FailingAtFirst {
                failures,
                items: Items { alloc, text },
            };
            Came::transacted(service.transact_with_retries(alloc, home, &retries, &mut work))
        }
        "crash" => Came::done(service.crash(small_number(&mut words)?)),
        "recover" => Came::done(service.recover(small_number(&mut words)?)),
        call => ask_of_action(alloc, service, call, words),
    }
}

/// Makes a call whose first argument is an action, which it works with or ends.
fn ask_of_action(
    alloc: Global,
    service: &mut Called,
    call: &str,
    mut words: Words<'_>,
) -> Result<Came, RowFault> {
    let action = name(alloc, &mut words)?;
    match call {
        "commit" => Came::done(service.commit(&action)),
        "close" => Came::done(service.close(&action)),
        "decide" => Came::done(service.decide(&action)),
        "abort" => Came::done(service.abort(&action)),
        "prepare" => Came::said(service.prepare(small_number(&mut words)?, &action)),
        "tell" => Came::told(service.tell(small_number(&mut words)?, &action)),
        "tell_all" => {
            let guardians = small_numbers(alloc, words)?;
            Came::done(service.tell_all(guardians.as_slice(), &action))
        }
        "commit_top" => {
            let participants = small_numbers(alloc, words)?;
            Came::said(service.commit_top(&action, participants.as_slice()))
        }
        call => {
            let at = object(&mut words)?;
            let operation = operation(alloc, call, words)?;
            Came::replied(service.operate(&action, at, operation))
        }
    }
}

/// The operation of this name, on the field or the tag that the next word is.
pub(crate) fn operation(alloc: Global, call: &str, mut words: Words<'_>) -> Result<Op, RowFault> {
    let word = words.word()?;
    let made = match call {
        "get" => get(alloc, word),
        "set" => set(alloc, word, value(alloc, words)?),
        "is" => is(alloc, word),
        "value_of" => value_of(alloc, word),
        "change" => change(alloc, word, value(alloc, words)?),
        _ => return Err(RowFault::Unread),
    };
    made.map_err(|fault| match fault {
        ValueFault::Memory => RowFault::Memory,
        ValueFault::Unfit => RowFault::Unread,
    })
}
