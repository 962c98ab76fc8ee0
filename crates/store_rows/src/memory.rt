//! Databases in memory.
use crate::calls::{Change, load, make};
use crate::machines::{Database, Keeper, Refusal};
use rows::RowFault;
use sql_store::SqlStable;
use sqlite::{Alter, Connection, Error, MemStore};
use stable_store::{Stable, StoreFault};
use std::alloc::Global;
use store_tables::is_known;

/// A database in memory.
#[derive(Drop)]
pub(crate) enum InMemory {
    Closed(Connection<MemStore>),
    Open(SqlStable<MemStore>),
}

impl Keeper for InMemory {
    fn is_open(&self) -> bool {
        matches!(self, InMemory::Open(_))
    }

    fn make(&mut self, alloc: Global, change: Change<'_>) -> Result<Option<StoreFault>, RowFault> {
        match self {
            InMemory::Open(store) => make(alloc, store, change),
            InMemory::Closed(_) => Err(RowFault::Unread),
        }
    }

    fn load(&mut self, alloc: Global, answer: &mut String) -> Result<(), RowFault> {
        match self {
            InMemory::Open(store) => load(alloc, store, answer),
            InMemory::Closed(_) => Err(RowFault::Unread),
        }
    }

    fn failures(&self) -> Result<u64, RowFault> {
        match self {
            InMemory::Open(store) => Ok(store.failures()),
            InMemory::Closed(_) => Err(RowFault::Unread),
        }
    }

    fn close(self) -> InMemory {
        match self {
            InMemory::Open(store) => InMemory::Closed(store.into_connection()),
            InMemory::Closed(conn) => InMemory::Closed(conn),
        }
    }
}

impl Database for InMemory {
    fn with_tables(alloc: Global, tables: [&str; 2], batch: &str) -> Result<InMemory, Error> {
        let mut conn = Connection::open_in_memory(alloc)?;
        run_batches(&mut conn, tables, batch)?;
        Ok(InMemory::Closed(conn))
    }

    fn open(self, alloc: Global) -> (InMemory, Option<Refusal>) {
        match self {
            InMemory::Closed(conn) => match SqlStable::new(alloc, conn) {
                Ok(store) => (InMemory::Open(store), None),
                Err((fault, conn)) => (InMemory::Closed(conn), Some(Refusal::Store(fault))),
            },
            InMemory::Open(store) => (InMemory::Open(store), Some(Refusal::Open)),
        }
    }

    fn shown_number(&mut self, query: &str) -> Result<i64, Refusal> {
        match self {
            InMemory::Closed(conn) => shown_number(conn, query).map_err(Refusal::Database),
            InMemory::Open(_) => Err(Refusal::Open),
        }
    }

    fn is_known(&self) -> Result<bool, RowFault> {
        match self {
            InMemory::Closed(conn) => Ok(is_known(conn.schema())),
            InMemory::Open(_) => Err(RowFault::Unread),
        }
    }
}

/// Makes these tables and runs these statements.
pub(crate) fn run_batches<A: Alter>(
    conn: &mut Connection<A>,
    tables: [&str; 2],
    batch: &str,
) -> Result<(), Error> {
    let [first, second] = tables;
    conn.execute_batch(first)?;
    conn.execute_batch(second)?;
    conn.execute_batch(batch)
}

fn shown_number<A: Alter>(conn: &mut Connection<A>, query: &str) -> Result<i64, Error> {
    conn.query_row(query, &[])?.get(0)
}
