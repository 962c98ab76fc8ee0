//! A store in SQL tables.
use crate::calls;
use crate::opening::{Opened, open};
use atomic_types::Part;
use sqlite::{Alter, Connection};
use stable_store::numbers::{has_zero, is_misnumbered};
use stable_store::{Kept, Stable, StoreFault};
use std::alloc::Global;
use std::collections::BTreeMap;
use std::marker::Model;
use store_tables::one_content_is_held;
use store_writing::faults::count_fault;
use values::Content;

/// A store in the tables of a database, with the content that they stand for.
#[derive(Drop)]
pub struct SqlStable<A: Alter + Drop> {
    conn: Connection<A>,
    kept: Kept,
    failures: u64,
    /// Whether the database has the tables of a store and nothing else.
    is_known: bool,
    /// Whether the tables held a content when the store was opened. Where they did not, each call is refused.
    holds_content: bool,
}

impl<A: Alter + Drop> Model for SqlStable<A> {
    ghost use Rattle.std.specs.Prelude.{IsTrue};
    ghost use Rattle.sqlite.specs.Held.{state};
    ghost use Rattle.stable_store.specs.Held.{held};
    ghost use Rattle.store_writing.specs.Steps.{Stands};
    ghost use Rattle.sql_store.specs.Views.{InTables, in_tables_code};

    ghost Value = { InTables A };

    ghost coded = { in_tables_code A.code };

    ghost view = { λ s. record {
      kept = s.kept;
      conn = s.conn;
      failures = s.failures;
      is_known = s.is_known;
      holds_content = s.holds_content;
    } };

    ghost invariant = { λ s. IsTrue s.is_known → IsTrue s.holds_content
        → Stands (state A.Store s.conn) (held s.kept) };
}

impl<A: Alter + Drop> SqlStable<A> {
    ghost use Rattle.std.specs.Prelude.{◌≡◌, if◌then◌else◌, IfOk, IfErr, IfSome, IsTrue, Some, None, option_map};
    ghost use Rattle.sqlite.specs.Held.{state};
    ghost use Rattle.sqlite.specs.State.{HasCleanDisk};
    ghost use Rattle.stable_store.specs.Stored.{Stored, empty};
    ghost use Rattle.stable_store.specs.Calls.{View, Rests, found};
    ghost use Rattle.stable_store.specs.Held.{held};
    ghost use Rattle.stable_store.specs.declared.fault.StoreFault.TheVariants.{NotOurs};
    ghost use Rattle.store_tables.specs.Tables.{no_schema, stable_schema};
    ghost use Rattle.store_writing.specs.Steps.{Stands, Carries};
    ghost use Rattle.sql_store.specs.Reading.{Knows, StopLeaves};
    ghost use Rattle.sql_store.specs.First.{IsFirst};
    ghost use Rattle.sql_store.specs.Beside.{IsBeside, Keeps};
    ghost use Rattle.sql_store.specs.Views.{sql_view};

    /// A store in this database: in tables that it makes where the database has none of them, and else in those that
    /// are there. Tables of version 1 are migrated, and the store has the content that they held. `NotOurs` where
    /// only some tables are there, where they have other columns or are of another version, and where the next top
    /// action's number is none; `Failed` where the device or the database refuses or does not hold what was written,
    /// or a transaction is under way; `Memory` if memory runs out. With a fault the connection comes back, and the
    /// database is what it was.
    ///
    /// Where the tables hold no content of a store, the store answers `NotOurs` to each call, and counts it.
    pub fn new(
        alloc: Global,
        conn: Connection<A>,
    ) -> Result<SqlStable<A>, (StoreFault, Connection<A>)>
        ensures failures { IfOk result (λ s. (sql_view A.Store s).failures ≡ 0) }
        ensures rests { IfOk result (λ s. Rests (sql_view A.Store s)) }
        ensures known { IfOk result
            (λ s. Knows (state A.Store s.conn) (sql_view A.Store s).is_known) }
        ensures fresh { IfOk result
            (λ s. HasCleanDisk (state A.Store s.conn) → (state A.Store conn).now.schema ≡ no_schema
            → found (sql_view A.Store s) ≡ Some empty) }
        ensures makes { IfOk result (λ s. HasCleanDisk (state A.Store s.conn)
            → (state A.Store conn).now.schema ≡ no_schema
            → (state A.Store s.conn).now.schema ≡ stable_schema) }
        ensures refused { IfErr result
            (λ e. HasCleanDisk (state A.Store e.1) → (state A.Store conn).now.schema ≡ no_schema
            → IsTrue (state A.Store e.1).is_open
            → (state A.Store e.1).now ≡ (state A.Store conn).now) }
        ensures held { IfOk result
            (λ s. HasCleanDisk (state A.Store s.conn) → (c : Stored) → Stands (state A.Store conn) c
            → found (sql_view A.Store s) ≡ Some c) }
        ensures recognized { IfErr result
            (λ e. e.0 ≡ NotOurs → HasCleanDisk (state A.Store e.1) → (c : Stored)
            → ¬ Stands (state A.Store conn) c) }
        ensures migrates { IfOk result (λ s. HasCleanDisk (state A.Store s.conn) → (c : Stored)
            → IsFirst (state A.Store conn) c → found (sql_view A.Store s) ≡ Some c) }
        ensures makes_anew { IfOk result (λ s. HasCleanDisk (state A.Store s.conn) → (c : Stored)
            → IsFirst (state A.Store conn) c
            → (state A.Store s.conn).now.schema ≡ stable_schema) }
        ensures recognized_first { IfErr result (λ e. e.0 ≡ NotOurs
            → HasCleanDisk (state A.Store e.1) → (c : Stored)
            → ¬ IsFirst (state A.Store conn) c) }
        ensures refused_first { IfErr result (λ e. HasCleanDisk (state A.Store e.1) → (c : Stored)
            → IsFirst (state A.Store conn) c
            → IsTrue (state A.Store e.1).is_open
            → (state A.Store e.1).now ≡ (state A.Store conn).now) }
        ensures carries { IfOk result
            (λ s. HasCleanDisk (state A.Store s.conn) → (c : Stored) → Stands (state A.Store conn) c
            → Carries (state A.Store conn) (state A.Store s.conn) c c result) }
        ensures carries_back { IfErr result
            (λ e. HasCleanDisk (state A.Store e.1) → (c : Stored) → Stands (state A.Store conn) c
            → Carries (state A.Store conn) (state A.Store e.1) c c result) }
        ensures stands { IfOk result (λ s. (state A.Store conn).now.schema ≡ no_schema
            → Stands (state A.Store s.conn) empty) }
        ensures stands_first { IfOk result (λ s. (c : Stored) → IsFirst (state A.Store conn) c
            → Stands (state A.Store s.conn) c) }
        ensures leaves { IfOk result (λ s. (state A.Store conn).now.schema ≡ no_schema
            → StopLeaves (state A.Store conn) (state A.Store s.conn) empty) }
        ensures leaves_back { IfErr result (λ e. (state A.Store conn).now.schema ≡ no_schema
            → StopLeaves (state A.Store conn) (state A.Store e.1) empty) }
        ensures leaves_first { IfOk result (λ s. (c : Stored) → IsFirst (state A.Store conn) c
            → StopLeaves (state A.Store conn) (state A.Store s.conn) c) }
        ensures leaves_first_back { IfErr result (λ e. (c : Stored) → IsFirst (state A.Store conn) c
            → StopLeaves (state A.Store conn) (state A.Store e.1) c) }
        ensures beside { IfOk result (λ s. HasCleanDisk (state A.Store s.conn) → (c : Stored)
            → IsBeside (state A.Store conn) c → found (sql_view A.Store s) ≡ Some c) }
        ensures recognized_beside { IfErr result (λ e. e.0 ≡ NotOurs
            → HasCleanDisk (state A.Store e.1) → (c : Stored)
            → ¬ IsBeside (state A.Store conn) c) }
        ensures keeps_beside { IfOk result (λ s. HasCleanDisk (state A.Store s.conn) → (c : Stored)
            → IsBeside (state A.Store conn) c
            → Keeps (state A.Store conn) (state A.Store s.conn)) }
        ensures keeps_beside_back { IfErr result (λ e. HasCleanDisk (state A.Store e.1)
            → (c : Stored) → IsBeside (state A.Store conn) c
            → Keeps (state A.Store conn) (state A.Store e.1)) }
    {
        let mut conn = conn;
        one_content_is_held();
        match open(alloc, &mut conn) {
            Ok(opened) => Ok(SqlStable::over(alloc, conn, opened)),
            Err(fault) => Err((fault, conn)),
        }
    }

    fn over(alloc: Global, conn: Connection<A>, opened: Opened) -> SqlStable<A>
        requires { IsTrue opened.is_known
            → IfSome opened.kept (λ kept. Stands (state A.Store conn) (held kept)) }
        ensures conn { result.conn ≡ conn }
        ensures failures { result.failures ≡ 0 }
        ensures is_known { result.is_known ≡ opened.is_known }
        ensures content { (if result.holds_content then Some (held result.kept) else None)
            ≡ option_map held opened.kept }
        ensures known { IsTrue result.is_known → IsTrue result.holds_content
            → Stands (state A.Store conn) (held result.kept) }
    {
        let Opened { kept, is_known } = opened;
        let (kept, holds_content) = match kept {
            Some(kept) => (kept, true),
            None => (Kept::new(alloc), false),
        };
        SqlStable {
            conn,
            kept,
            failures: 0,
            is_known,
            holds_content,
        }
    }

    /// The connection as it is, so that the database can be closed.
    pub fn into_connection(self) -> Connection<A>
        ensures { result ≡ self.conn }
    {
        let SqlStable {
            conn,
            kept: _,
            failures: _,
            is_known: _,
            holds_content: _,
        } = self;
        conn
    }
}

impl<A: Alter + Drop> Stable for SqlStable<A> {
    ghost use Rattle.sql_store.specs.Views.{sql_view};

    ghost seen = { sql_view A.Store };

    ghost may_fail = { λ _ _. Unit {0} };

    ghost read = { Unit {0} };

    fn prepare(
        &mut self,
        alloc: Global,
        top: u32,
        home: u32,
        parts: BTreeMap<u32, Part>,
    ) -> Result<(), StoreFault> {
        one_content_is_held();
        if !self.holds_content {
            return Err(count_fault(&mut self.failures, StoreFault::NotOurs));
        }
        if is_misnumbered(top, home, &parts) {
            return Err(count_fault(&mut self.failures, StoreFault::Failed));
        }
        match calls::prepare(&mut self.conn, &mut self.kept, alloc, top, home, parts) {
            Ok(()) => Ok(()),
            Err(fault) => Err(count_fault(&mut self.failures, fault)),
        }
    }

    fn install(&mut self, alloc: Global, top: u32) -> Result<(), StoreFault> {
        one_content_is_held();
        if !self.holds_content {
            return Err(count_fault(&mut self.failures, StoreFault::NotOurs));
        }
        match calls::install(&mut self.conn, &mut self.kept, alloc, top) {
            Ok(()) => Ok(()),
            Err(fault) => Err(count_fault(&mut self.failures, fault)),
        }
    }

    fn discard(&mut self, top: u32) -> Result<(), StoreFault> {
        one_content_is_held();
        if !self.holds_content {
            return Err(count_fault(&mut self.failures, StoreFault::NotOurs));
        }
        match calls::discard(&mut self.conn, &mut self.kept, top) {
            Ok(()) => Ok(()),
            Err(fault) => Err(count_fault(&mut self.failures, fault)),
        }
    }

    fn decide(&mut self, top: u32) -> Result<(), StoreFault> {
        one_content_is_held();
        if !self.holds_content {
            return Err(count_fault(&mut self.failures, StoreFault::NotOurs));
        }
        if top == 0 {
            return Err(count_fault(&mut self.failures, StoreFault::Failed));
        }
        match calls::decide(&mut self.conn, &mut self.kept, top) {
            Ok(()) => Ok(()),
            Err(fault) => Err(count_fault(&mut self.failures, fault)),
        }
    }

    fn bump(&mut self) -> Result<(), StoreFault> {
        one_content_is_held();
        if !self.holds_content {
            return Err(count_fault(&mut self.failures, StoreFault::NotOurs));
        }
        match calls::bump(&mut self.conn, &mut self.kept) {
            Ok(()) => Ok(()),
            Err(fault) => Err(count_fault(&mut self.failures, fault)),
        }
    }

    fn save(&mut self, alloc: Global, contents: &BTreeMap<u32, Content>) -> Result<(), StoreFault> {
        one_content_is_held();
        if !self.holds_content {
            return Err(count_fault(&mut self.failures, StoreFault::NotOurs));
        }
        if has_zero(contents) {
            return Err(count_fault(&mut self.failures, StoreFault::Failed));
        }
        match calls::save(&mut self.conn, &mut self.kept, alloc, contents) {
            Ok(()) => Ok(()),
            Err(fault) => Err(count_fault(&mut self.failures, fault)),
        }
    }

    fn load(&mut self, alloc: Global) -> Result<Kept, StoreFault> {
        one_content_is_held();
        if !self.holds_content {
            return Err(count_fault(&mut self.failures, StoreFault::NotOurs));
        }
        match calls::load(&mut self.conn, &self.kept, alloc) {
            Ok(kept) => Ok(kept),
            Err(fault) => Err(count_fault(&mut self.failures, fault)),
        }
    }

    fn kept(&self) -> Option<&Kept> {
        match self.holds_content {
            true => Some(&self.kept),
            false => None,
        }
    }

    fn failures(&self) -> u64 {
        self.failures
    }
}
