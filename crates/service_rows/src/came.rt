//! What came of a call, and its text.
use crate::works::WorkFault;
use layer_contracts::Fault;
use rows::RowFault;
use run_model::{Answer, Name, Names, Reply};
use service::{CallFault, Cause, Outcome, Transacted};
use std::alloc::{AllocError, Global};

/// What a call gave, or why it did not come about.
#[derive(Drop)]
pub(crate) enum Came {
    Began(Name),
    BeganThese(Names),
    Replied(Answer),
    /// The vote of a guardian, or whether a top action committed.
    Said(bool),
    Told(u64),
    Done,
    /// How a transaction ended, and what it left.
    Transacted(Option<Aborted>, Option<CallFault>),
    Faulted(CallFault),
}

/// Why a transaction aborted.
#[derive(Drop)]
pub(crate) enum Aborted {
    Vote,
    Asked,
    Faulted(CallFault),
}

impl Came {
    pub(crate) fn began(came: Result<Name, CallFault>) -> Result<Came, RowFault> {
        match came {
            Ok(name) => Ok(Came::Began(name)),
            Err(fault) => Came::faulted(fault),
        }
    }

    pub(crate) fn began_these(came: Result<Names, CallFault>) -> Result<Came, RowFault> {
        match came {
            Ok(names) => Ok(Came::BeganThese(names)),
            Err(fault) => Came::faulted(fault),
        }
    }

    pub(crate) fn replied(came: Result<Reply, CallFault>) -> Result<Came, RowFault> {
        match came {
            Ok(reply) => Ok(Came::Replied(Answer::Granted(reply))),
            Err(fault) => Came::faulted(fault),
        }
    }

    pub(crate) fn said(came: Result<bool, CallFault>) -> Result<Came, RowFault> {
        match came {
            Ok(yes) => Ok(Came::Said(yes)),
            Err(fault) => Came::faulted(fault),
        }
    }

    pub(crate) fn told(came: Result<u64, CallFault>) -> Result<Came, RowFault> {
        match came {
            Ok(count) => Ok(Came::Told(count)),
            Err(fault) => Came::faulted(fault),
        }
    }

    pub(crate) fn done(came: Result<(), CallFault>) -> Result<Came, RowFault> {
        match came {
            Ok(()) => Ok(Came::Done),
            Err(fault) => Came::faulted(fault),
        }
    }

    pub(crate) fn transacted(came: Transacted<(), WorkFault>) -> Result<Came, RowFault> {
        let Transacted { outcome, left } = came;
        match outcome {
            Outcome::Committed(()) => Ok(Came::Transacted(None, left)),
            Outcome::Aborted(Cause::Vote) => Ok(Came::Transacted(Some(Aborted::Vote), left)),
            Outcome::Aborted(Cause::Work(WorkFault::Asked)) => {
                Ok(Came::Transacted(Some(Aborted::Asked), left))
            }
            Outcome::Aborted(Cause::Work(WorkFault::Row(fault))) => Err(fault),
            Outcome::Aborted(Cause::Work(WorkFault::Call(fault)) | Cause::Step(fault)) => {
                Ok(Came::Transacted(Some(Aborted::Faulted(fault)), left))
            }
        }
    }

    /// If memory ran out, nothing has happened, and the row is answered once more.
    fn faulted(fault: CallFault) -> Result<Came, RowFault> {
        match fault {
            CallFault::Failed(Fault::Memory) => Err(RowFault::Memory),
            fault => Ok(Came::Faulted(fault)),
        }
    }

    /// What a row says of it.
    pub(crate) fn text(&self, alloc: Global) -> Result<String, AllocError> {
        match self {
            Came::Began(name) => format!(in alloc; "{name}"),
            Came::BeganThese(names) => text_of_names(alloc, names),
            Came::Replied(answer) => answer.text(alloc),
            Came::Said(yes) => format!(in alloc; "{yes}"),
            Came::Told(count) => format!(in alloc; "{count}"),
            Came::Done => Ok(String::new(alloc)),
            Came::Transacted(aborted, left) => text_of_end(alloc, aborted, left),
            Came::Faulted(fault) => format!(in alloc; "{fault}"),
        }
    }
}

/// The names, a blank between two.
fn text_of_names(alloc: Global, names: &Names) -> Result<String, AllocError> {
    let mut text = String::new(alloc);
    for name in names.as_slice() {
        if !text.is_empty() {
            text.push(' ')?;
        }
        write!(text, "{name}")?;
    }
    Ok(text)
}

/// How a transaction ended, and what it left if it did.
fn text_of_end(
    alloc: Global,
    aborted: &Option<Aborted>,
    left: &Option<CallFault>,
) -> Result<String, AllocError> {
    let mut text = match aborted {
        None => format!(in alloc; "committed")?,
        Some(Aborted::Vote) => format!(in alloc; "aborted by a vote")?,
        Some(Aborted::Asked) => format!(in alloc; "aborted by the work")?,
        Some(Aborted::Faulted(fault)) => format!(in alloc; "aborted, {fault}")?,
    };
    if let Some(fault) = left {
        write!(text, ", left: {fault}")?;
    }
    Ok(text)
}
