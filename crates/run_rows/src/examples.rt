//! What the rows are about, and which call each of them makes.
use crate::picture_rows::list_shown;
use crate::scripts::{
    check_text, keep_script, number_fault, print_place, remake_steps, run_kept_script, run_text,
};
use crate::serial::{count_events, print_base, print_event, probe_locks, run_clients};
use crate::step_rows::{
    engine_answers, explain_action, keep_setup, keep_steps, lengthen_steps, list_answers,
    make_step, name_fault, rewrite_step,
};
use crate::stores::{Database, keep_database, run_in_memory, run_over_stores};
use crate::text::unescaped_text;
use crate::trace_rows::{gather_trace, trace_script};
use rows::{Row, RowFault};
use run_model::Setup;
use stable_store::PlainStable;
use std::alloc::{AllocError, Global};
use world::World;

/// What the rows of a section have given, and its world.
#[derive(Drop)]
pub(crate) struct Examples {
    pub(crate) alloc: Global,
    /// The document of the setup.
    pub(crate) setup: String,
    /// The lines that the engine reads.
    pub(crate) steps: Vec<u8>,
    /// The document of the script.
    pub(crate) script: String,
    /// What stands around the scripts that are checked, with `%` in their place.
    pub(crate) frame: String,
    /// The databases of the stores.
    pub(crate) databases: Vec<Database>,
    /// The world in which steps are made.
    pub(crate) world: World<PlainStable>,
}

impl Examples {
    /// Nothing is given, and the world has no guardian.
    pub(crate) fn new(alloc: Global) -> Result<Examples, AllocError> {
        let world = World::in_memory(alloc, Setup::new(alloc))?;
        Ok(Examples {
            alloc,
            setup: String::new(alloc),
            steps: Vec::new(alloc),
            script: String::new(alloc),
            frame: String::new(alloc),
            databases: Vec::new(alloc),
            world,
        })
    }

    /// Makes the call of a row.
    pub(crate) fn answer(&mut self, row: &Row<'_>, answer: &mut String) -> Result<(), RowFault> {
        match row.call {
            "setup" => keep_setup(self, row.given),
            "steps" => keep_steps(self, row.given),
            "long_line" => lengthen_steps(self, row.words()),
            "step" => make_step(self.alloc, &mut self.world, row.given, answer),
            "list" => list_answers(self, answer),
            "engine" => engine_answers(self, row, answer),
            "explain" => explain_action(self, row, answer),
            "trace" => gather_trace(self, row, answer),
            "picture" => list_shown(self, row, answer),
            "rewrite" => rewrite_step(self.alloc, row.given, answer),
            "fault" => name_fault(self.alloc, row.given, answer),
            _ => answer_of_script(self, row, answer),
        }
    }
}

/// Makes the call of a row that is about scripts.
fn answer_of_script(
    examples: &mut Examples,
    row: &Row<'_>,
    answer: &mut String,
) -> Result<(), RowFault> {
    match row.call {
        "frame" => keep_frame(examples, row.given),
        "check" => check_text(examples, row, answer),
        "script" => keep_script(examples, row, answer),
        "run" => run_kept_script(examples, row, answer),
        "run_text" => run_text(examples.alloc, row, answer),
        "run_traced" => trace_script(examples, row, answer),
        "remake" => remake_steps(examples, answer),
        "place" => print_place(examples.alloc, row.given, answer),
        "fault_number" => number_fault(examples.alloc, row.given, answer),
        _ => answer_of_run(examples, row, answer),
    }
}

/// Makes the call of a row that is about what runs leave.
fn answer_of_run(
    examples: &mut Examples,
    row: &Row<'_>,
    answer: &mut String,
) -> Result<(), RowFault> {
    match row.call {
        "serial" => run_clients(examples, row.words(), answer),
        "events" => count_events(examples, answer),
        "event" => print_event(examples, row.words(), answer),
        "base" => print_base(examples, row.words(), answer),
        "unlocked" => probe_locks(examples, row, answer),
        "database" => keep_database(examples, row.words()),
        "stored" => run_over_stores(examples, row.words(), answer),
        "in_memory" => run_in_memory(examples, row.words(), answer),
        _ => Err(RowFault::Unread),
    }
}

fn keep_frame(examples: &mut Examples, frame: &str) -> Result<(), RowFault> {
    examples.frame = unescaped_text(examples.alloc, frame)?;
    Ok(())
}
