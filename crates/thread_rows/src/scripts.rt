//! The rows: a script, and what comes of it in threads.
use crate::written::written;
use rows::{Row, RowFault, Subject};
use script_threads::Watching;
use std::alloc::{AllocError, Global};
use std::sync::Wait;
use std::thread::Threads;
use std::time::{Clock, Duration};

/// More seconds than a run takes.
const AN_HOUR: u64 = 3600;

/// A script, how often it is run, and what each run has to write.
#[derive(Drop)]
pub(crate) struct Expected {
    script: String,
    times: u32,
    outcome: String,
}

impl Expected {
    /// The row `in_threads TIMES OUTCOME`, behind the row of the script.
    fn read(alloc: Global, script: &str, given: &str) -> Result<Expected, RowFault> {
        let Some((times, outcome)) = given.split_once(' ') else {
            return Err(RowFault::Unread);
        };
        Ok(Expected {
            script: String::from_str(alloc, script)?,
            times: times.parse().map_err(|_| RowFault::Unread)?,
            outcome: String::from_str(alloc, outcome)?,
        })
    }

    /// What the script has to write.
    pub(crate) fn outcome(&self) -> &str {
        self.outcome.as_str()
    }

    /// What the first run writes that writes anything but what it has to; `None` if there is no such run. Every other
    /// run is watched.
    pub(crate) fn other<H: Threads + Wait + Clock + Eprint + Sync>(
        &self,
        alloc: Global,
        rt: &H,
    ) -> Result<Option<String>, RowFault> {
        for time in 0..self.times {
            let came = written(alloc, rt, self.script.as_str(), watching(time))?;
            if came.as_str() != self.outcome.as_str() {
                return Ok(Some(came));
            }
        }
        Ok(None)
    }
}

/// How a run is watched: every other one for an hour, the rest not at all.
fn watching(time: u32) -> Watching {
    if time % 2 == 0 {
        Watching::none()
    } else {
        Watching {
            limit: Some(Duration::from_secs(AN_HOUR)),
            shows_progress: false,
        }
    }
}

/// The scripts that rows give. They are run once all rows are read, because a method of a trait starts no threads.
#[derive(Drop)]
pub(crate) struct Scripts {
    alloc: Global,
    script: String,
    expected: Vec<Expected>,
}

impl Scripts {
    pub(crate) fn new(alloc: Global) -> Scripts {
        Scripts {
            alloc,
            script: String::new(alloc),
            expected: Vec::new(alloc),
        }
    }

    /// The scripts, in the order of their rows.
    pub(crate) fn expected(&self) -> &[Expected] {
        self.expected.as_slice()
    }
}

impl Subject for Scripts {
    fn begin(&mut self, _section: &str) -> Result<(), AllocError> {
        self.script = String::new(self.alloc);
        Ok(())
    }

    fn answer(&mut self, row: &Row<'_>, _answer: &mut String) -> Result<(), RowFault> {
        match row.call {
            "script" => {
                self.script = String::from_str(self.alloc, row.given)?;
                Ok(())
            }
            "in_threads" => {
                let expected = Expected::read(self.alloc, self.script.as_str(), row.given)?;
                self.expected.push(expected).map_err(AllocError::from)?;
                Ok(())
            }
            _ => Err(RowFault::Unread),
        }
    }
}
