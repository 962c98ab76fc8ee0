//! Sections of worlds over stores that fail at one call, and the calls of their rows.
use crate::contents::{empty, number, parts, put_decided, put_record, write_kept};
use crate::repeating::write_step;
use crate::system::{Failing, System, Unopened};
use crate::trials::{Trial, write_failure, write_failures};
use rows::{Row, RowFault, Words};
use run_model::{ObjectId, Setup, SetupFault, Step};
use stable_store::{Kept, Prepared};
use std::alloc::{AllocError, Global};

/// What the rows of a section work on.
#[derive(Drop)]
pub(crate) struct Section<W: System> {
    alloc: Global,
    setup: Setup,
    /// What the guardians' stores held at the last stop, or what rows put there.
    left: Vec<Kept>,
    world: Option<W>,
    /// The steps that are kept.
    steps: Vec<Step>,
}

impl<W: System> Section<W> {
    pub(crate) fn new(alloc: Global) -> Section<W> {
        Section {
            alloc,
            setup: Setup::new(alloc),
            left: Vec::new(alloc),
            world: None,
            steps: Vec::new(alloc),
        }
    }

    /// Makes the call of a row.
    pub(crate) fn answer(&mut self, row: &Row<'_>, answer: &mut String) -> Result<(), RowFault> {
        match row.call {
            "setup" => self.set_up(row.given, answer),
            "hold" => self.hold(row.words()),
            "prepared" => self.hold_record(row.words()),
            "decided" => self.hold_decided(row.words()),
            "counted" => self.hold_count(row.words()),
            "open" => self.open(row.words(), answer),
            "step" => self.make_step(row.given, answer),
            "stop" => self.stop(answer),
            "do" => self.keep_step(row.given),
            _ => self.ask(row, answer),
        }
    }

    /// `setup DOCUMENT`: the section has this setup and empty stores.
    fn set_up(&mut self, document: &str, answer: &mut String) -> Result<(), RowFault> {
        let setup = read_setup(self.alloc, document)?;
        write!(answer, "{} guardians", setup.guardians())?;
        self.left = empty(self.alloc, setup.guardians())?;
        self.setup = setup;
        self.world = None;
        Ok(())
    }

    /// `hold GUARDIAN OBJECT=PART ..`: these parts are installed in the guardian's store.
    fn hold(&mut self, mut words: Words<'_>) -> Result<(), RowFault> {
        let guardian = number(&mut words)?;
        let base = parts(self.alloc, words)?;
        let kept = self.left_of(guardian)?;
        kept.base = base;
        Ok(())
    }

    /// `prepared GUARDIAN TOP HOME OBJECT=PART ..`: the guardian's store has this record.
    fn hold_record(&mut self, mut words: Words<'_>) -> Result<(), RowFault> {
        let guardian = number(&mut words)?;
        let top = number(&mut words)?;
        let home = number(&mut words)?;
        let parts = parts(self.alloc, words)?;
        let record = Prepared { home, parts };
        Ok(put_record(self.left_of(guardian)?, top, record)?)
    }

    /// `decided GUARDIAN TOP`: the guardian's store has the top action among its decided ones.
    fn hold_decided(&mut self, mut words: Words<'_>) -> Result<(), RowFault> {
        let guardian = number(&mut words)?;
        let top = number(&mut words)?;
        Ok(put_decided(self.left_of(guardian)?, top)?)
    }

    /// `counted GUARDIAN COUNT`: the guardian's store has counted so many recoveries.
    fn hold_count(&mut self, mut words: Words<'_>) -> Result<(), RowFault> {
        let guardian = number(&mut words)?;
        let count = words.number()?;
        let kept = self.left_of(guardian)?;
        kept.count = count;
        Ok(())
    }

    /// `open`, `open GUARDIAN CALL`: a world over stores that hold what is left. This call of the guardian's store
    /// fails. If the opening is refused twice, the stores come back, and what they hold is left.
    fn open(&mut self, words: Words<'_>, answer: &mut String) -> Result<(), RowFault> {
        let failing = read_failing(words)?;
        let left = self.left.as_slice();
        let opened = W::open(self.alloc, &self.setup, left, failing, answer);
        match opened {
            Ok(world) => {
                self.world = Some(world);
                Ok(answer.push_str("opened")?)
            }
            Err(Unopened::Row(fault)) => Err(fault),
            Err(Unopened::Stores(left)) => {
                self.world = None;
                self.left = left;
                Ok(())
            }
        }
    }

    /// `step LINE`: makes the step in the world.
    fn make_step(&mut self, line: &str, answer: &mut String) -> Result<(), RowFault> {
        let step = read_step(self.alloc, line)?;
        self.make(&step, answer)
    }

    fn make(&mut self, step: &Step, answer: &mut String) -> Result<(), RowFault> {
        match &mut self.world {
            Some(world) => write_step(world, step, answer),
            None => Err(RowFault::Unread),
        }
    }

    /// `stop`: of the world is left what its stores hold.
    fn stop(&mut self, answer: &mut String) -> Result<(), RowFault> {
        answer.push_str("stopped")?;
        let left = self.left_now()?;
        self.close(left);
        Ok(())
    }

    /// What the stores of the world hold.
    fn left_now(&self) -> Result<Vec<Kept>, RowFault> {
        left_by(self.alloc, self.opened()?, &self.setup)
    }

    /// The world is gone, and its stores hold this.
    fn close(&mut self, left: Vec<Kept>) {
        self.left = left;
        self.world = None;
    }

    /// `do LINE`: the section keeps the step.
    fn keep_step(&mut self, line: &str) -> Result<(), RowFault> {
        let step = read_step(self.alloc, line)?;
        Ok(self.steps.push(step).map_err(AllocError::from)?)
    }

    /// The rows that change nothing.
    fn ask(&self, row: &Row<'_>, answer: &mut String) -> Result<(), RowFault> {
        match row.call {
            "base" => self.write_base(row.words(), answer),
            "store" => self.write_store(row.words(), answer),
            "failures" => self.count_failures(row.words(), answer),
            "size" => self.write_size(answer),
            "failure" => write_failure::<W>(&self.trial(), read_failing(row.words())?, answer),
            "each_failure" => write_failures::<W>(&self.trial(), answer),
            _ => Err(RowFault::Unread),
        }
    }

    /// `size`: how many steps were accepted.
    fn write_size(&self, answer: &mut String) -> Result<(), RowFault> {
        let size = self.opened()?.events();
        Ok(write!(answer, "{size}")?)
    }

    /// `base GUARDIAN NUMBER`: the base of an object.
    fn write_base(&self, mut words: Words<'_>, answer: &mut String) -> Result<(), RowFault> {
        let object = ObjectId {
            guardian: number(&mut words)?,
            number: number(&mut words)?,
        };
        let content = self.opened()?.content(object)?;
        let text = content.text(self.alloc)?;
        Ok(answer.push_str(text.as_str())?)
    }

    /// `store GUARDIAN`: what the guardian's store holds, or what is left of it if no world is open.
    fn write_store(&self, mut words: Words<'_>, answer: &mut String) -> Result<(), RowFault> {
        let guardian = number(&mut words)?;
        let kept = match &self.world {
            Some(world) => world.kept(guardian),
            None => self.left.get(place(guardian)?),
        };
        Ok(write_kept(self.alloc, kept.ok_or(RowFault::Unread)?, answer)?)
    }

    /// `failures GUARDIAN`: how many failures the guardian's store has counted.
    fn count_failures(&self, mut words: Words<'_>, answer: &mut String) -> Result<(), RowFault> {
        let guardian = number(&mut words)?;
        let failures = self.opened()?.failures(guardian);
        let failures = failures.ok_or(RowFault::Unread)?;
        Ok(write!(answer, "{failures}")?)
    }

    /// The world that is open.
    fn opened(&self) -> Result<&W, RowFault> {
        self.world.as_ref().ok_or(RowFault::Unread)
    }

    /// What is left of the guardian's store.
    fn left_of(&mut self, guardian: u32) -> Result<&mut Kept, RowFault> {
        self.left.get_mut(place(guardian)?).ok_or(RowFault::Unread)
    }

    /// The steps that are kept, over what is left.
    fn trial(&self) -> Trial<'_> {
        Trial {
            alloc: self.alloc,
            setup: &self.setup,
            left: self.left.as_slice(),
            steps: self.steps.as_slice(),
        }
    }
}

/// The place of what the guardian has, from 0.
fn place(guardian: u32) -> Result<usize, RowFault> {
    (guardian as usize).checked_sub(1).ok_or(RowFault::Unread)
}

/// What the stores of the setup's guardians hold.
fn left_by<W: System>(alloc: Global, world: &W, setup: &Setup) -> Result<Vec<Kept>, RowFault> {
    let mut left = Vec::new(alloc);
    let guardians = setup.guardians() as u32;
    for guardian in 1..=guardians {
        let kept = world.kept(guardian).ok_or(RowFault::Unread)?;
        left.push(kept.copy(alloc)?).map_err(AllocError::from)?;
    }
    Ok(left)
}

/// Of the words `GUARDIAN CALL`, or of none.
fn read_failing(mut words: Words<'_>) -> Result<Failing, RowFault> {
    if words.rest().is_empty() {
        return Ok(Failing::never());
    }
    let guardian = number(&mut words)?;
    let call = words.number()?;
    Ok(Failing { guardian, call })
}

fn read_setup(alloc: Global, document: &str) -> Result<Setup, RowFault> {
    match Setup::read(alloc, document.as_bytes()) {
        Ok(setup) => Ok(setup),
        Err(SetupFault::Memory) => Err(RowFault::Memory),
        Err(SetupFault::Bad) => Err(RowFault::Unread),
    }
}

fn read_step(alloc: Global, line: &str) -> Result<Step, RowFault> {
    Step::read(alloc, line.as_bytes())?.ok_or(RowFault::Unread)
}
