//! Setups, histories, and the texts of steps and answers.
use crate::past::Past;
use crate::{answers, setups, steps, trace_files};
use rows::{Row, RowFault};
use run_model::Setup;
use std::alloc::Global;

/// The setup of a section, and its history.
#[derive(Drop)]
pub(crate) struct Runs {
    alloc: Global,
    setup: Setup,
    past: Past,
}

impl Runs {
    pub(crate) fn new(alloc: Global) -> Runs {
        Runs {
            alloc,
            setup: Setup::new(alloc),
            past: Past::new(alloc),
        }
    }

    pub(crate) fn answer(&mut self, row: &Row<'_>, answer: &mut String) -> Result<(), RowFault> {
        let alloc = self.alloc;
        let words = row.words();
        match row.call {
            "setup" => setups::answer(alloc, &mut self.setup, words, answer),
            "history" => self.past.answer(alloc, words, answer),
            _ => answer_alone(alloc, row, answer),
        }
    }
}

/// Answers the rows that need no other row.
fn answer_alone(alloc: Global, row: &Row<'_>, answer: &mut String) -> Result<(), RowFault> {
    match row.call {
        "step" => steps::copy(alloc, row.given, answer),
        "long_arms" => steps::long_arms(alloc, row.words(), answer),
        "long_text" => steps::long_text(alloc, row.words(), answer),
        "answer" => answers::copy(alloc, row.given, answer),
        "answer_line" => answers::line(alloc, row.given, answer),
        "trace" => trace_files::read(alloc, row.given, answer),
        _ => Err(RowFault::Unread),
    }
}
