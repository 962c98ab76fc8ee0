//! The bank: a service of two branches. A file has what their stores hold, as a JSON array.
use crate::payments::{BALANCE, Change, Payment, balance_in};
use anyhow::{Context, Result, ensure};
use run_model::{Name, Setup, Value};
use service::{Outcome, Service, Transacted, Work, get, set};
use std::fs;
use std::fs::File;
use std::io::Write;
use store_texts::{read_stores, store_text};
use world::{PlainStable, Stable, World};

/// Two branches with two accounts each.
const SETUP: &str = "{\"guardians\":[\
{\"objects\":[{\"record\":{\"balance\":100}},{\"record\":{\"balance\":20}}]},\
{\"objects\":[{\"record\":{\"balance\":50}},{\"record\":{\"balance\":0}}]}]}";

/// The branches, which are the guardians of the world.
const BRANCHES: [u32; 2] = [1, 2];

const FILE: &str = "bank.json";

const NEW_FILE: &str = "bank.json.new";

/// The bank. What happened is in its file before anybody is told of it.
#[derive(Drop)]
pub(crate) struct Bank<'r> {
    rt: &'r HostRuntime,
    service: Service<World<PlainStable>>,
}

impl<'r> Bank<'r> {
    /// The bank to which nothing has happened.
    pub(crate) fn open(rt: &'r HostRuntime) -> Result<Bank<'r>> {
        let setup = Setup::read(rt.alloc(), SETUP.as_bytes())?;
        let service = Service::over(World::in_memory(rt.alloc(), setup)?);
        Ok(Bank { rt, service })
    }

    /// The bank as its file has it. What was not decided is undone.
    pub(crate) fn reopen(rt: &'r HostRuntime) -> Result<Bank<'r>> {
        let setup = Setup::read(rt.alloc(), SETUP.as_bytes())?;
        let stores = stores_in_file(rt)?;
        ensure!(
            stores.len() == setup.guardians(),
            "not the file of this bank"
        );
        let opened = World::reopen(rt.alloc(), setup, stores);
        let service = Service::over(opened.map_err(|(refused, _stores)| refused)?);
        Ok(Bank { rt, service })
    }

    /// Makes a transaction. All that it began has ended.
    pub(crate) fn transact<J: Work<World<PlainStable>>>(
        &mut self,
        home: u32,
        work: &mut J,
    ) -> Result<Outcome<J::Value, J::Error>> {
        let Transacted { outcome, left } = self.service.transact(self.rt.alloc(), home, work);
        self.keep()?;
        match left {
            None => Ok(outcome),
            Some(fault) => Err(fault.into()),
        }
    }

    /// Makes a payment by single calls, up to the votes of both branches, and gives its top action.
    pub(crate) fn vote_on(&mut self, payment: &Payment) -> Result<Name> {
        let top = self.service.begin(payment.from.object.guardian)?;
        let (take, give) = payment.changes();
        self.change(&top, &take)?;
        self.change(&top, &give)?;
        self.service.close(&top)?;
        for branch in BRANCHES {
            ensure!(self.service.prepare(branch, &top)?, "a branch votes no");
        }
        self.keep()?;
        Ok(top)
    }

    /// Calls the handler that makes the change.
    fn change(&mut self, top: &Name, change: &Change) -> Result<()> {
        let Change { alloc, object, .. } = *change;
        let call = self.service.call(top, object.guardian)?;
        let read = self.service.operate(&call, object, get(alloc, BALANCE)?)?;
        let balance = Value::Int(change.after(balance_in(&read)?)?);
        let writes = set(alloc, BALANCE, balance)?;
        self.service.operate(&call, object, writes)?;
        self.service.commit(&call)?;
        self.service.tell(object.guardian, &call)?;
        Ok(())
    }

    /// Decides a payment on which both branches voted yes.
    pub(crate) fn decide(&mut self, top: &Name) -> Result<()> {
        self.service.decide(top)?;
        self.service.tell_all(&BRANCHES, top)?;
        self.keep()
    }

    /// A branch loses what it holds of actions that it has not prepared, and comes back.
    pub(crate) fn crash(&mut self, branch: u32) -> Result<()> {
        self.service.crash(branch)?;
        self.service.recover(branch)?;
        self.keep()
    }

    /// Writes the file. A stop leaves the old file or the new one.
    fn keep(&self) -> Result<()> {
        let mut text = String::new(self.rt.alloc());
        for branch in BRANCHES {
            text.push(if text.is_empty() { '[' } else { ',' })?;
            let guardian = self.service.world.guardian(branch);
            let store = guardian.context("no such branch")?.store();
            let kept = store.kept().context("a store has no content")?;
            text.push_str(store_text(self.rt.alloc(), kept)?.as_str())?;
        }
        text.push(']')?;
        let mut file = File::create(self.rt, NEW_FILE)?;
        file.write_all(text.as_bytes())?;
        file.sync_all()?;
        fs::rename(self.rt, NEW_FILE, FILE)?;
        File::open(self.rt, ".")?.sync_all()?;
        Ok(())
    }
}

/// Stores with the contents that the file has.
fn stores_in_file(rt: &HostRuntime) -> Result<Vec<PlainStable>> {
    let bytes = fs::read(rt, FILE)?;
    let mut stores = Vec::new(rt.alloc());
    for kept in read_stores(rt.alloc(), bytes.as_slice())? {
        stores.push(PlainStable::from(kept))?;
    }
    Ok(stores)
}
