//! The rows: an example's steps, made by one thread.
ghost use Rattle.std.specs.Prelude.{◌≡◌, []};
ghost use Rattle.run_model.specs.Openings.{opening_in};
ghost use Rattle.stable_store.specs.Plain.{plain_view};
ghost use Rattle.guardian.specs.Guardians.{IsWhole};
ghost use Rattle.registry.specs.Registries.{StandsIn};
ghost use Rattle.world_steps.specs.Standings.{IsWorld};
ghost use Rattle.world.specs.Worlds.{seen_of};

use crate::runs::{Threaded, end, made, push, started};
use guardian::Guardian;
use registry::Registry;
use rows::{Row, RowFault, Subject};
use run_model::{Answer, Step};
use runtime::{Gate, OfRun, OpenGate, Receipts, Start};
use stable_store::PlainStable;
use std::alloc::{AllocError, Global};
use std::marker::Brand;
use std::sync::Wait;

/// What the rows of a section have given.
#[derive(Drop)]
pub(crate) struct Examples<'a, H> {
    alloc: Global,
    rt: &'a H,
    setup: String,
}

impl<'a, H> Examples<'a, H> {
    pub(crate) fn new(alloc: Global, rt: &'a H) -> Examples<'a, H> {
        Examples {
            alloc,
            rt,
            setup: String::new(alloc),
        }
    }
}

impl<'a, H: Wait> Subject for Examples<'a, H> {
    fn begin(&mut self, _section: &str) -> Result<(), AllocError> {
        self.setup = String::new(self.alloc);
        Ok(())
    }

    fn answer(&mut self, row: &Row<'_>, answer: &mut String) -> Result<(), RowFault> {
        match row.call {
            "setup" => {
                self.setup = String::from_str(self.alloc, row.given)?;
                Ok(())
            }
            "locked" => {
                let steps = steps_of(self.alloc, row.given)?;
                let answers = answers_to(self.alloc, self.rt, self.setup.as_str(), &steps)?;
                write(self.alloc, &answers, answer)
            }
            _ => Err(RowFault::Unread),
        }
    }
}

/// What stands between two steps, and between two answers.
const SEPARATOR: &str = " | ";

/// Writes the answers, with ` | ` between two.
fn write(alloc: Global, answers: &[Answer], text: &mut String) -> Result<(), RowFault> {
    for (index, given) in answers.iter().enumerate() {
        if index > 0 {
            text.push_str(SEPARATOR)?;
        }
        text.push_str(given.text(alloc)?.as_str())?;
    }
    Ok(())
}

/// The steps that the text spells.
fn steps_of(alloc: Global, text: &str) -> Result<Vec<Step>, RowFault> {
    let mut steps = Vec::new(alloc);
    for line in text.split(SEPARATOR) {
        if let Some(step) = Step::read(alloc, line.as_bytes())? {
            push(&mut steps, step)?;
        }
    }
    Ok(steps)
}

/// What a runtime over the setup answers to the steps, which one thread makes.
pub(crate) fn answers_to<H: Wait>(
    alloc: Global,
    rt: &H,
    setup: &str,
    steps: &[Step],
) -> Result<Vec<Answer>, RowFault> {
    let (start, registry, guardians) = started(alloc, setup)?;
    listed::<Brand, H>(alloc, rt, start, registry, guardians, steps)
}

fn listed<K: OfRun, H: Wait>(
    alloc: Global,
    rt: &H,
    start: Start,
    registry: Registry,
    guardians: Vec<Guardian<PlainStable>>,
    steps: &[Step],
) -> Result<Vec<Answer>, RowFault>
    requires table { start.run.table.shared.table_id ≡ K.table }
    requires opening { opening_in start.run.table.shared.key ≡ K.opening }
    requires world { IsWorld (λ g s. IsWhole plain_view g s)
        (λ g. seen_of plain_view g) (StandsIn registry) K.opening [] guardians.items }
{
    let runtime = Threaded::<K, OpenGate>::new(alloc, start, registry, guardians, OpenGate)?;
    let mut receipts = runtime.no_receipts();
    let answers = make_all(alloc, rt, &runtime, steps, &mut receipts);
    end(runtime, receipts)?;
    answers
}

/// Makes the steps one after another; their answers.
pub(crate) fn make_all<K: OfRun, P: Gate, H: Wait>(
    alloc: Global,
    rt: &H,
    runtime: &Threaded<K, P>,
    steps: &[Step],
    receipts: &mut Receipts<K>,
) -> Result<Vec<Answer>, RowFault> {
    let mut answers = Vec::new(alloc);
    for step in steps {
        push(&mut answers, made(runtime, rt, step, receipts)?)?;
    }
    Ok(answers)
}
