//! The steps that a section keeps, made in new worlds in which a store fails once.
use crate::contents::write_uncounted;
use crate::repeating::{Trouble, make};
use crate::system::{Failing, System, Unopened};
use rows::RowFault;
use run_model::{Setup, Step};
use stable_store::Kept;
use std::alloc::{AllocError, Global};

/// More calls than are made of a store in a section.
const CALLS: u64 = 200;

/// Steps, and what the stores hold before them.
#[derive(Clone, Copy, Drop)]
pub(crate) struct Trial<'a> {
    pub(crate) alloc: Global,
    pub(crate) setup: &'a Setup,
    pub(crate) left: &'a [Kept],
    pub(crate) steps: &'a [Step],
}

/// What came of the steps in a new world.
#[derive(Drop)]
struct Course {
    /// The answers, and what the stores hold at the end. How many recoveries they have counted is left out: an opening
    /// that is made once more may have counted one at some of them.
    told: String,
    /// In which step a store failed; empty if none did.
    failed: String,
}

impl<'a> Trial<'a> {
    /// Makes the steps in a new world in which a store fails.
    fn course<W: System>(&self, failing: Failing) -> Result<Course, RowFault> {
        let mut course = Course {
            told: String::new(self.alloc),
            failed: String::new(self.alloc),
        };
        let mut world = self.open::<W>(failing, &mut course.failed)?;
        for step in self.steps {
            course.make_step(self.alloc, &mut world, step)?;
        }
        course.close(self.alloc, &world, self.setup)?;
        Ok(course)
    }

    fn open<W: System>(&self, failing: Failing, failed: &mut String) -> Result<W, RowFault> {
        let mut said = String::new(self.alloc);
        match W::open(self.alloc, self.setup, self.left, failing, &mut said) {
            Ok(world) => {
                note_opening(said.as_str(), failed)?;
                Ok(world)
            }
            Err(Unopened::Row(fault)) => Err(fault),
            Err(Unopened::Stores(_stores)) => Err(RowFault::Unread),
        }
    }
}

/// Notes that a store failed in the opening, if something was said there.
fn note_opening(said: &str, failed: &mut String) -> Result<(), AllocError> {
    if said.is_empty() {
        return Ok(());
    }
    failed.push_str("opening")
}

impl Course {
    fn make_step<W: System>(
        &mut self,
        alloc: Global,
        world: &mut W,
        step: &Step,
    ) -> Result<(), RowFault> {
        let made = make(world, step)?;
        self.note_trouble(alloc, made.trouble, step)?;
        made.answer.write_to(&mut self.told)?;
        Ok(self.told.push_str("; ")?)
    }

    /// Notes the step in which a store failed. That something had happened then is no answer of a world in which none
    /// fails.
    fn note_trouble(
        &mut self,
        alloc: Global,
        trouble: Trouble,
        step: &Step,
    ) -> Result<(), AllocError> {
        if trouble == Trouble::None {
            return Ok(());
        }
        if trouble == Trouble::Happened {
            self.told.push_str(trouble.text())?;
        }
        self.failed.push_str(step.text(alloc)?.as_str())
    }

    /// Writes what the stores hold at the end, and how many failures they have counted if that is not one a failure.
    fn close<W: System>(
        &mut self,
        alloc: Global,
        world: &W,
        setup: &Setup,
    ) -> Result<(), RowFault> {
        let mut counted: u64 = 0;
        let guardians = setup.guardians() as u32;
        for guardian in 1..=guardians {
            let kept = world.kept(guardian).ok_or(RowFault::Unread)?;
            write_uncounted(alloc, kept, &mut self.told)?;
            self.told.push_str("; ")?;
            let failures = world.failures(guardian).ok_or(RowFault::Unread)?;
            counted = counted.saturating_add(failures);
        }
        Ok(self.check_counted(counted)?)
    }

    fn check_counted(&mut self, counted: u64) -> Result<(), AllocError> {
        let expected = if self.failed.is_empty() { 0 } else { 1 };
        if counted == expected {
            return Ok(());
        }
        write!(self.told, "{counted} failures counted")
    }
}

/// `failure GUARDIAN CALL`: in which step that call of the guardian's store is made and fails, and what is then
/// otherwise.
pub(crate) fn write_failure<W: System>(
    trial: &Trial<'_>,
    failing: Failing,
    answer: &mut String,
) -> Result<(), RowFault> {
    let whole = trial.course::<W>(Failing::never())?;
    let course = trial.course::<W>(failing)?;
    if course.failed.is_empty() {
        answer.push_str("none")?;
    } else {
        answer.push_str(course.failed.as_str())?;
    }
    if course.told.as_str() != whole.told.as_str() {
        write!(
            answer,
            ": {} in place of {}",
            course.told.as_str(),
            whole.told.as_str()
        )?;
    }
    Ok(())
}

/// How many failures were tried, and how many were wrong.
#[derive(Drop)]
struct Tally {
    failures: u64,
    wrong: u64,
    /// Which call failed in the first that was wrong.
    first: String,
}

/// `each_failure`: lets each call of each guardian's store fail in turn, up to the first that is not made.
pub(crate) fn write_failures<W: System>(
    trial: &Trial<'_>,
    answer: &mut String,
) -> Result<(), RowFault> {
    let mut tally = Tally {
        failures: 0,
        wrong: 0,
        first: String::new(trial.alloc),
    };
    let whole = trial.course::<W>(Failing::never())?;
    let guardians = trial.setup.guardians() as u32;
    for guardian in 1..=guardians {
        tally.fail_each::<W>(trial, guardian, &whole)?;
    }
    let first = tally.first.as_str();
    write!(
        answer,
        "{} failures, {} wrong{first}",
        tally.failures, tally.wrong
    )?;
    Ok(())
}

impl Tally {
    /// Lets each call of the guardian's store fail in turn.
    fn fail_each<W: System>(
        &mut self,
        trial: &Trial<'_>,
        guardian: u32,
        whole: &Course,
    ) -> Result<(), RowFault> {
        for call in 1..=CALLS {
            let failing = Failing { guardian, call };
            let course = trial.course::<W>(failing)?;
            self.count(failing, &course, whole)?;
            if course.failed.is_empty() {
                return Ok(());
            }
        }
        Err(RowFault::Unread)
    }

    fn count(
        &mut self,
        failing: Failing,
        course: &Course,
        whole: &Course,
    ) -> Result<(), AllocError> {
        if !course.failed.is_empty() {
            self.failures = self.failures.saturating_add(1);
        }
        if course.told.as_str() == whole.told.as_str() {
            return Ok(());
        }
        if self.wrong == 0 {
            write!(
                self.first,
                ": failure {} {}",
                failing.guardian, failing.call
            )?;
        }
        self.wrong = self.wrong.saturating_add(1);
        Ok(())
    }
}
