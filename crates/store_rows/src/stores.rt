//! What the rows of a section work on, and their calls.
use crate::calls::Change;
use crate::devices::{filled, has_known_tables, open_and_close, open_store};
use crate::machines::{Database, Failing, Keeper, Machine, Refusal, read_frames};
use crate::stops::{
    Trial, open_exhausted, shut, write_opening, write_openings, write_stop, write_stops,
};
use rows::{Row, RowFault, Subject, Words};
use sqlite::{Error, ErrorCode};
use sqlite_resolve::CompileError;
use stable_store::StoreFault;
use std::alloc::{AllocError, Global};
use std::fmt::Write;
use std::mem;

/// What a section works on.
#[derive(Drop)]
enum Held<D: Database, M: Machine> {
    Nothing,
    Database(D),
    Device(M),
}

/// The subject of the rows, over databases in memory and devices.
#[derive(Drop)]
pub(crate) struct Stores<D: Database, M: Machine> {
    alloc: Global,
    held: Held<D, M>,
}

/// A database with a store's tables, of version 1.
pub(crate) const FIRST_TABLES: &str = "CREATE TABLE meta(k TEXT PRIMARY KEY, v INTEGER NOT NULL);
    CREATE TABLE base(obj INTEGER PRIMARY KEY, val TEXT NOT NULL);
    CREATE TABLE prepared(top INTEGER PRIMARY KEY, home INTEGER NOT NULL);
    CREATE TABLE prepared_val(top INTEGER NOT NULL REFERENCES prepared(top) ON DELETE CASCADE,
        obj INTEGER NOT NULL, val TEXT NOT NULL, PRIMARY KEY(top, obj));
    CREATE TABLE decided(top INTEGER PRIMARY KEY);
    INSERT INTO meta VALUES ('version', 1), ('count', 3);";

/// What version 2 has beside that.
const SECOND_TABLES: &str =
    "CREATE TABLE prepared_delta(top INTEGER NOT NULL REFERENCES prepared(top) ON DELETE CASCADE,
        obj INTEGER NOT NULL, add_by INTEGER NOT NULL, PRIMARY KEY(top, obj));
    UPDATE meta SET v = 2 WHERE k = 'version';
    INSERT INTO meta VALUES ('next_top', 5);";

/// Room for a fault, which is reserved before a call: once that is made, no memory is wanted to tell its answer.
const ROOM: usize = 64;

impl<D: Database, M: Machine> Subject for Stores<D, M> {
    fn begin(&mut self, _section: &str) -> Result<(), AllocError> {
        self.held = Held::Nothing;
        Ok(())
    }

    fn answer(&mut self, row: &Row<'_>, answer: &mut String) -> Result<(), RowFault> {
        answer.reserve(ROOM)?;
        match row.call {
            "load" => self.load(answer),
            "failures" => self.write_failures(answer),
            "database" => self.make_database(["", ""], row.given, answer),
            "first_tables" => self.make_database([FIRST_TABLES, ""], row.given, answer),
            "tables" => self.make_database([FIRST_TABLES, SECOND_TABLES], row.given, answer),
            "open" => self.open(answer),
            "close" => self.close(answer),
            "query" => self.query(row.given, answer),
            "known" => self.write_known(row.words(), answer),
            "file"
            | "bytes"
            | "fill"
            | "fill_first"
            | "fill_tables"
            | "refused"
            | "stops"
            | "stop_after"
            | "stop_openings"
            | "stop_opening_after"
            | "exhaust"
            | "shut"
            | "crash"
            | "restart" => { self.work_device(row, answer) }
            _ => self.change(row, answer),
        }
    }
}

/// Writes `done`, or the fault with which a call was refused.
fn tell(fault: Option<StoreFault>, answer: &mut String) -> Result<(), RowFault> {
    match fault {
        None => Ok(answer.push_str("done")?),
        Some(StoreFault::Memory) => Err(RowFault::Memory),
        Some(fault) => Ok(write!(answer, "{fault:?}")?),
    }
}

/// Writes the error with which a database refused; `Memory` if memory runs out.
fn tell_error(error: Error, answer: &mut String) -> Result<(), RowFault> {
    match error {
        Error::SqliteFailure(ErrorCode::OutOfMemory)
        | Error::SqlInputError(CompileError::OutOfMemory) => Err(RowFault::Memory),
        error => Ok(write!(answer, "{error:?}")?),
    }
}

/// Writes `done`, or what refused a call.
fn tell_refusal(refusal: Option<Refusal>, answer: &mut String) -> Result<(), RowFault> {
    match refusal {
        None => tell(None, answer),
        Some(Refusal::Open) => Err(RowFault::Unread),
        Some(Refusal::Database(error)) => tell_error(error, answer),
        Some(Refusal::Store(fault)) => tell(Some(fault), answer),
    }
}

/// The calls over a database in memory.
impl<D: Database, M: Machine> Stores<D, M> {
    pub(crate) fn new(alloc: Global) -> Stores<D, M> {
        Stores {
            alloc,
            held: Held::Nothing,
        }
    }

    /// Makes a database by these statements.
    fn make_database(
        &mut self,
        tables: [&str; 2],
        batch: &str,
        answer: &mut String,
    ) -> Result<(), RowFault> {
        match D::with_tables(self.alloc, tables, batch) {
            Ok(database) => {
                self.held = Held::Database(database);
                tell(None, answer)
            }
            Err(error) => tell_error(error, answer),
        }
    }

    /// Opens the store of the database. The database stays if that is refused.
    fn open(&mut self, answer: &mut String) -> Result<(), RowFault> {
        match mem::replace(&mut self.held, Held::Nothing) {
            Held::Database(database) => {
                let (database, refusal) = database.open(self.alloc);
                self.held = Held::Database(database);
                tell_refusal(refusal, answer)
            }
            held => {
                self.held = held;
                Err(RowFault::Unread)
            }
        }
    }

    /// Gives the database back that a store is in.
    fn close(&mut self, answer: &mut String) -> Result<(), RowFault> {
        match mem::replace(&mut self.held, Held::Nothing) {
            Held::Database(database) => {
                let was_open = database.is_open();
                self.held = Held::Database(database.close());
                if was_open {
                    tell(None, answer)
                } else {
                    Err(RowFault::Unread)
                }
            }
            held => {
                self.held = held;
                Err(RowFault::Unread)
            }
        }
    }

    /// Writes the one number that a query shows.
    fn query(&mut self, query: &str, answer: &mut String) -> Result<(), RowFault> {
        let Held::Database(database) = &mut self.held else {
            return Err(RowFault::Unread);
        };
        match database.shown_number(query) {
            Ok(number) => Ok(write!(answer, "{number}")?),
            Err(refusal) => tell_refusal(Some(refusal), answer),
        }
    }

    /// Writes whether the database has the tables of a store and nothing else.
    fn write_known(&self, mut words: Words<'_>, answer: &mut String) -> Result<(), RowFault> {
        let is_known = match &self.held {
            Held::Database(database) => database.is_known()?,
            Held::Device(device) => {
                has_known_tables(self.alloc, device, read_frames(&mut words)?)?
            }
            Held::Nothing => return Err(RowFault::Unread),
        };
        Ok(write!(answer, "{is_known}")?)
    }

    fn change(&mut self, row: &Row<'_>, answer: &mut String) -> Result<(), RowFault> {
        let change = Change::of(row);
        let fault = match &mut self.held {
            Held::Database(database) => database.make(self.alloc, change)?,
            Held::Device(device) => device.make(self.alloc, change)?,
            Held::Nothing => return Err(RowFault::Unread),
        };
        tell(fault, answer)
    }

    fn load(&mut self, answer: &mut String) -> Result<(), RowFault> {
        match &mut self.held {
            Held::Database(database) => database.load(self.alloc, answer),
            Held::Device(device) => device.load(self.alloc, answer),
            Held::Nothing => Err(RowFault::Unread),
        }
    }

    fn write_failures(&self, answer: &mut String) -> Result<(), RowFault> {
        let failures = match &self.held {
            Held::Database(database) => database.failures()?,
            Held::Device(device) => device.failures()?,
            Held::Nothing => return Err(RowFault::Unread),
        };
        Ok(write!(answer, "{failures}")?)
    }
}

/// The calls over a device.
impl<D: Database, M: Machine> Stores<D, M> {
    fn work_device(&mut self, row: &Row<'_>, answer: &mut String) -> Result<(), RowFault> {
        let words = row.words();
        match row.call {
            "file" => self.lay_file(row.given, answer),
            "bytes" => self.write_bytes(answer),
            "fill" => self.fill(answer),
            "fill_first" => self.fill_tables([FIRST_TABLES, ""], row.given, answer),
            "fill_tables" => self.fill_tables([FIRST_TABLES, SECOND_TABLES], row.given, answer),
            "refused" => self.refused(words, answer),
            "stops" => self.stop(words, answer),
            "stop_after" => self.stop_after(words, answer),
            "stop_openings" => self.stop_openings(words, answer),
            "stop_opening_after" => self.stop_opening_after(words, answer),
            "exhaust" => self.exhaust(words, answer),
            "shut" => self.shut(words, answer),
            "crash" => self.crash(answer),
            "restart" => self.restart(words, answer),
            _ => Err(RowFault::Unread),
        }
    }

    /// Lays this text into a database file.
    fn lay_file(&mut self, text: &str, answer: &mut String) -> Result<(), RowFault> {
        self.held = Held::Device(M::with_bytes(self.alloc, text.as_bytes())?);
        tell(None, answer)
    }

    /// Writes the database file's text.
    fn write_bytes(&self, answer: &mut String) -> Result<(), RowFault> {
        match str::from_utf8(self.device()?.database()?) {
            Ok(text) => Ok(answer.push_str(text)?),
            Err(_) => Err(RowFault::Unread),
        }
    }

    /// Makes a device with a store that is filled, and writes the content.
    fn fill(&mut self, answer: &mut String) -> Result<(), RowFault> {
        let device: M = filled(self.alloc)?;
        open_store(self.alloc, device, 1)?.load(self.alloc, answer)?;
        self.held = Held::Device(filled(self.alloc)?);
        Ok(())
    }

    /// Makes a device with these tables, which are filled by these statements.
    fn fill_tables(
        &mut self,
        tables: [&str; 2],
        batch: &str,
        answer: &mut String,
    ) -> Result<(), RowFault> {
        self.held = Held::Device(M::with_tables(self.alloc, tables, batch)?);
        tell(None, answer)
    }

    /// Opens the store in a copy of the device. Writes the fault with which it was refused, and whether both files
    /// have the bytes that they had.
    fn refused(&self, mut words: Words<'_>, answer: &mut String) -> Result<(), RowFault> {
        let device = self.device()?;
        let (fault, left) = open_and_close(self.alloc, device, read_frames(&mut words)?)?;
        tell(fault, answer)?;
        answer.push_str(match left.has_bytes_of(device) {
            true => ", unchanged",
            false => ", changed",
        })?;
        Ok(())
    }

    /// Stops copies of the device while the store is opened, each at another call.
    fn stop_openings(&self, mut words: Words<'_>, answer: &mut String) -> Result<(), RowFault> {
        let failing = Failing::read(&mut words)?;
        write_openings(self.alloc, self.device()?, failing, answer)
    }

    /// Stops a copy of the device while the store is opened, after so many calls.
    fn stop_opening_after(
        &self,
        mut words: Words<'_>,
        answer: &mut String,
    ) -> Result<(), RowFault> {
        let calls = words.number()?;
        let failing = Failing::read(&mut words)?;
        write_opening(self.alloc, self.device()?, failing, calls, answer)
    }

    fn device(&self) -> Result<&M, RowFault> {
        match &self.held {
            Held::Device(device) => Ok(device),
            _ => Err(RowFault::Unread),
        }
    }

    /// Stops copies of the device in a change, each at another call.
    fn stop(&self, words: Words<'_>, answer: &mut String) -> Result<(), RowFault> {
        let trial = Trial::read(self.device()?, words)?;
        write_stops(self.alloc, &trial, answer)
    }

    /// Stops a copy of the device in a change, after so many calls.
    fn stop_after(&self, mut words: Words<'_>, answer: &mut String) -> Result<(), RowFault> {
        let calls = words.number()?;
        let trial = Trial::read(self.device()?, words)?;
        write_stop(self.alloc, &trial, calls, answer)
    }

    /// Opens a copy of the device, which from then on fails.
    fn exhaust(&mut self, mut words: Words<'_>, answer: &mut String) -> Result<(), RowFault> {
        let failing = Failing::read(&mut words)?;
        let store = open_exhausted(self.alloc, self.device()?, failing)?;
        self.held = Held::Device(store);
        tell(None, answer)
    }

    /// Opens a copy of the device, and makes a change in which a sync fails.
    fn shut(&mut self, words: Words<'_>, answer: &mut String) -> Result<(), RowFault> {
        let trial = Trial::read(self.device()?, words)?;
        let store = shut(self.alloc, &trial)?;
        self.held = Held::Device(store);
        tell(Some(StoreFault::Failed), answer)
    }

    /// Crashes the store's machine, and leaves its device, which does not fail any more.
    fn crash(&mut self, answer: &mut String) -> Result<(), RowFault> {
        if !self.device()?.is_open() {
            return Err(RowFault::Unread);
        }
        if let Held::Device(device) = mem::replace(&mut self.held, Held::Nothing) {
            self.held = Held::Device(device.crash());
        }
        tell(None, answer)
    }

    /// Opens the store of the device. The files stay if they are refused.
    fn restart(&mut self, mut words: Words<'_>, answer: &mut String) -> Result<(), RowFault> {
        let log_frames = read_frames(&mut words)?;
        match mem::replace(&mut self.held, Held::Nothing) {
            Held::Device(device) => {
                let (device, refusal) = device.open(self.alloc, log_frames);
                self.held = Held::Device(device);
                tell_refusal(refusal, answer)
            }
            held => {
                self.held = held;
                Err(RowFault::Unread)
            }
        }
    }
}
