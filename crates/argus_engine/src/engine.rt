ghost use Rattle.std.specs.Prelude.{◌≡◌, IfErr, IfOk, IsErrOf, OnOk, OnErr, string_bytes, ◌++◌, ◌∷◌, []};
ghost use Rattle.run_model.specs.Texts.{answer_text};
ghost use Rattle.run_model.specs.Transcripts.{error_text, line_feed};
ghost use Rattle.argus_engine.specs.Serving.{Answers, BeginsAnswers, GaveUp, MakesFirst, Writes};
ghost use Rattle.argus_engine.specs.Reading.{AnswersLine, GoesOn, IsOfReaderOrStep, IsOfStep, MayGoOn, MayMake, MayMakeNext};
ghost use Rattle.stepping.specs.Stepping.{FailsAtStore, HasMade};
ghost use Rattle.argus_engine.specs.declared.engine.Fault.TheVariants.{Store};

use crate::reading::{Line, Met, front_of, read_line};
use crate::writing::{finish, send_if_full};
use run_model::{Answer, MAX_LINE, Step};
use stable_store::StoreFault;
use std::alloc::{AllocError, AllocFailed, Global};
use std::io::{BufRead, BufReader, ErrorKind, Read, Write};
use stepping::MakesSteps;
use thiserror::Error;

/// How the engine came to its end.
#[derive(Clone, Copy, Debug, PartialEq, Eq, Drop)]
pub enum Ended {
    /// Every line was a step.
    Done,
    /// A line was no step, and its error is the last that was written.
    Stopped,
}

/// Why the engine gave up.
#[derive(Clone, Copy, Debug, PartialEq, Eq, Drop, Error)]
pub enum Fault {
    /// Memory ran out.
    #[error("fault memory")]
    Memory,
    /// A store failed.
    #[error("fault store")]
    Store,
    /// A read failed.
    #[error("fault input")]
    Input,
    /// A write or the last flush failed.
    #[error("fault output")]
    Output,
    /// A guardian has drawn its 4,294,967,296 stamps.
    #[error("fault stamps")]
    Stamps,
    /// The receipts of threads are not those of all events.
    #[error("fault receipts")]
    Receipts,
    /// An action of a run in threads has neither committed nor aborted.
    #[error("fault open")]
    Open,
    /// The time that was given to a run was over before its clients had ended.
    #[error("fault time")]
    Time,
}

impl From<AllocError> for Fault {
    ghost use Rattle.std.specs.Prelude.{◌≡◌};
    ghost use Rattle.argus_engine.specs.declared.engine.Fault.TheVariants.{Memory};

    ghost from_gives = { λ _ fault. fault ≡ Memory };

    fn from(_refused: AllocError) -> Fault {
        Fault::Memory
    }
}

impl<T: Drop> From<AllocFailed<T>> for Fault {
    ghost use Rattle.std.specs.Prelude.{◌≡◌};
    ghost use Rattle.argus_engine.specs.declared.engine.Fault.TheVariants.{Memory};

    ghost from_gives = { λ _ fault. fault ≡ Memory };

    fn from(_refused: AllocFailed<T>) -> Fault {
        Fault::Memory
    }
}

impl From<StoreFault> for Fault {
    ghost use Rattle.std.specs.Prelude.{◌≡◌};
    ghost use Rattle.argus_engine.specs.Serving.{fault_of};

    ghost from_gives = { λ fault e. e ≡ fault_of fault };

    fn from(fault: StoreFault) -> Fault {
        match fault {
            StoreFault::Memory => Fault::Memory,
            StoreFault::Failed | StoreFault::NotOurs => Fault::Store,
        }
    }
}

impl From<stepping::Fault> for Fault {
    ghost use Rattle.std.specs.Prelude.{◌≡◌};
    ghost use Rattle.argus_engine.specs.Serving.{fault_of_step};

    ghost from_gives = { λ fault e. e ≡ fault_of_step fault };

    fn from(fault: stepping::Fault) -> Fault {
        match fault {
            stepping::Fault::Memory => Fault::Memory,
            stepping::Fault::Stable => Fault::Store,
        }
    }
}

/// What came of looking for one more line.
#[derive(Clone, Copy, Drop)]
pub(crate) enum Next {
    Answered,
    NoStep,
    End,
}

/// Reads steps to the end or to the first line that is no step, makes each in the world, and writes the line of each
/// answer, or `error` with the line's number, after which nothing more is written. A line is ended by a line feed and
/// has at most 8,192 bytes before it. After a fault a beginning was written of the answers that belong to the input,
/// and of those that belong to some beginning of it. The steps of some first lines were made then, and no other;
/// their answers may not all be written. `Store` comes only where a step failed at the store of a guardian, which
/// then has counted one failure more; the world and the contents of the stores are as the steps before left them.
/// `Memory` comes where memory ran out in a step or beside the steps, and `Input` and `Output` where each step was
/// made. No other fault comes.
pub fn steps<M: MakesSteps, R: Read, W: Write>(
    alloc: Global,
    world: &mut M,
    reader: &mut R,
    writer: &mut W,
) -> Result<Ended, Fault>
    ensures ok { IfOk result (λ ended. Writes (W.contents writer.old) (W.contents writer.new)
        (λ written. Answers (R.remaining reader.old) (M.run world.old)
        (M.run world.new) written ended)) }
    // also after a fault
    ensures begun { Writes (W.contents writer.old) (W.contents writer.new)
        (λ written. BeginsAnswers (R.remaining reader.old) (M.run world.old) written) }
    ensures steps { MakesFirst (R.remaining reader.old) (M.run world.old) (M.run world.new) }
    ensures made { OnOk result (HasMade M.run M.leaves world.old world.new) }
    ensures cause { IsErrOf result Store → FailsAtStore M.run M.leaves world.old world.new }
    ensures left { IfErr result (GaveUp M.run M.leaves world.old world.new) }
{
    let Ok(mut buffered) = BufReader::new(alloc, reader) else {
        return Err(Fault::Memory);
    };
    let mut answers = String::new(alloc);
    let ended = answer_all(alloc, world, &mut buffered, writer, &mut answers);
    let finished = finish(writer, answers.as_str());
    let ended = ended?;
    finished?;
    Ok(ended)
}

/// Answers line after line. Answers that are not yet written are left in the text, also after a fault.
fn answer_all<M: MakesSteps, R: BufRead, W: Write>(
    alloc: Global,
    world: &mut M,
    reader: &mut R,
    writer: &mut W,
    answers: &mut String,
) -> Result<Ended, Fault>
    requires { string_bytes answers.old ≡ [] }
    ensures ok { IfOk result (λ ended. Writes (W.contents writer.old) (W.contents writer.new)
        (λ sent. Answers (R.remaining reader.old) (M.run world.old) (M.run world.new)
        (sent ++ string_bytes answers.new) ended)) }
    ensures begun { Writes (W.contents writer.old) (W.contents writer.new)
        (λ sent. BeginsAnswers (R.remaining reader.old) (M.run world.old)
        (sent ++ string_bytes answers.new)) }
    ensures steps { MakesFirst (R.remaining reader.old) (M.run world.old) (M.run world.new) }
    ensures made { OnOk result (HasMade M.run M.leaves world.old world.new) }
    ensures cause { IsErrOf result Store → FailsAtStore M.run M.leaves world.old world.new }
    ensures left { IfErr result (GaveUp M.run M.leaves world.old world.new) }
{
    let mut line = Vec::new(alloc);
    for number in 1..u64::MAX {
        match answer_next(alloc, world, reader, &mut line, answers)? {
            Next::Answered => (),
            Next::NoStep => {
                push_error(alloc, number, answers)?;
                return Ok(Ended::Stopped);
            }
            Next::End => return Ok(Ended::Done),
        }
        send_if_full(writer, answers)?;
    }
    Err(Fault::Input)
}

/// Reads one line, makes its step and appends the line of its answer. After a fault the text is as it was.
fn answer_next<M: MakesSteps, R: BufRead>(
    alloc: Global,
    world: &mut M,
    reader: &mut R,
    line: &mut Vec<u8>,
    answers: &mut String,
) -> Result<Next, Fault>
    ensures ok { IfOk result (λ next.
        GoesOn (R.remaining reader.old) (R.remaining reader.new) (M.run world.old) (M.run world.new)
        (string_bytes answers.old) (string_bytes answers.new) next) }
    ensures err { OnErr result (string_bytes answers.new ≡ string_bytes answers.old) }
    ensures once { OnErr result
        (MayMakeNext (R.remaining reader.old) (M.run world.old) (M.run world.new)) }
    ensures made { OnOk result (HasMade M.run M.leaves world.old world.new) }
    ensures fault { IfErr result IsOfReaderOrStep }
    ensures cause { IsErrOf result Store → FailsAtStore M.run M.leaves world.old world.new }
    ensures left { IfErr result (GaveUp M.run M.leaves world.old world.new) }
{
    match answer_ready(alloc, world, reader, answers)? {
        Some(next) => Ok(next),
        None => answer_read(alloc, world, reader, line, answers),
    }
}

/// Where the reader has the next line ready with its line feed, makes its step and appends the line of its answer. The
/// line is read where it lies. Otherwise nothing is read; at the end of the input the reader is not asked again. After
/// a fault the text is as it was.
fn answer_ready<M: MakesSteps, R: BufRead>(
    alloc: Global,
    world: &mut M,
    reader: &mut R,
    answers: &mut String,
) -> Result<Option<Next>, Fault>
    ensures ok { IfOk result (MayGoOn (R.remaining reader.old) (R.remaining reader.new)
        (M.run world.old) (M.run world.new) (string_bytes answers.old) (string_bytes answers.new)) }
    ensures err { OnErr result (string_bytes answers.new ≡ string_bytes answers.old) }
    ensures once { OnErr result
        (MayMakeNext (R.remaining reader.old) (M.run world.old) (M.run world.new)) }
    ensures made { OnOk result (HasMade M.run M.leaves world.old world.new) }
    ensures fault { IfErr result IsOfReaderOrStep }
    ensures cause { IsErrOf result Store → FailsAtStore M.run M.leaves world.old world.new }
    ensures left { IfErr result (GaveUp M.run M.leaves world.old world.new) }
{
    let ready = match reader.fill_buf() {
        Ok(ready) => ready,
        Err(error) if error.kind() == ErrorKind::Interrupted => return Ok(None),
        Err(_) => return Err(Fault::Input),
    };
    let front = front_of(ready, MAX_LINE + 1);
    match front.met {
        Met::LineFeed => (),
        Met::More => return Ok(None),
        Met::End => return Ok(Some(Next::End)),
    }
    let next = match answer_line(alloc, world, &ready[..front.count], answers)? {
        true => Next::Answered,
        false => Next::NoStep,
    };
    reader.consume(front.taken);
    Ok(Some(next))
}

/// Reads one line piece by piece, makes its step and appends the line of its answer. After a fault the text is as it
/// was.
#[tactic(auto, using(crate::proofs::Bytes::line_is_no_step))]
fn answer_read<M: MakesSteps, R: BufRead>(
    alloc: Global,
    world: &mut M,
    reader: &mut R,
    line: &mut Vec<u8>,
    answers: &mut String,
) -> Result<Next, Fault>
    ensures ok { IfOk result (λ next.
        GoesOn (R.remaining reader.old) (R.remaining reader.new) (M.run world.old) (M.run world.new)
        (string_bytes answers.old) (string_bytes answers.new) next) }
    ensures err { OnErr result (string_bytes answers.new ≡ string_bytes answers.old) }
    ensures once { OnErr result
        (MayMakeNext (R.remaining reader.old) (M.run world.old) (M.run world.new)) }
    ensures made { OnOk result (HasMade M.run M.leaves world.old world.new) }
    ensures fault { IfErr result IsOfReaderOrStep }
    ensures cause { IsErrOf result Store → FailsAtStore M.run M.leaves world.old world.new }
    ensures left { IfErr result (GaveUp M.run M.leaves world.old world.new) }
{
    match read_line(reader, line)? {
        Line::Whole => match answer_line(alloc, world, line, answers)? {
            true => Ok(Next::Answered),
            false => Ok(Next::NoStep),
        },
        Line::Bad => Ok(Next::NoStep),
        Line::Missing => Ok(Next::End),
    }
}

/// Makes the step that the line spells and appends the line of its answer; `false` where the line spells no step. After
/// a fault the text is as it was.
fn answer_line<M: MakesSteps>(
    alloc: Global,
    world: &mut M,
    line: &[u8],
    answers: &mut String,
) -> Result<bool, Fault>
    ensures ok { IfOk result (AnswersLine line.now (M.run world.old) (M.run world.new)
        (string_bytes answers.old) (string_bytes answers.new)) }
    ensures err { OnErr result (string_bytes answers.new ≡ string_bytes answers.old) }
    ensures once { OnErr result (MayMake line.now (M.run world.old) (M.run world.new)) }
    ensures made { OnOk result (HasMade M.run M.leaves world.old world.new) }
    ensures fault { IfErr result IsOfStep }
    ensures cause { IsErrOf result Store → FailsAtStore M.run M.leaves world.old world.new }
    ensures left { IfErr result (GaveUp M.run M.leaves world.old world.new) }
{
    let Some(step) = Step::read(alloc, line)? else {
        return Ok(false);
    };
    let answer = world.step(&step)?;
    push_answer(&answer, answers)?;
    Ok(true)
}

fn push_answer(answer: &Answer, answers: &mut String) -> Result<(), AllocError>
    ensures ok { OnOk result (string_bytes answers.new
        ≡ string_bytes answers.old ++ (answer_text answer.now ++ line_feed ∷ [])) }
    ensures err { OnErr result (string_bytes answers.new ≡ string_bytes answers.old) }
{
    let len = answers.as_str().len();
    answer.write_to(answers)?;
    let ended = answers.push('\n');
    if ended.is_err() {
        answers.truncate(len);
    }
    ended
}

fn push_error(alloc: Global, number: u64, answers: &mut String) -> Result<(), AllocError>
    ensures ok { OnOk result
        (string_bytes answers.new ≡ string_bytes answers.old ++ error_text number) }
    ensures err { OnErr result (string_bytes answers.new ≡ string_bytes answers.old) }
{
    let line = format!(in alloc; "error {number}\n")?;
    answers.push_str(line.as_str())
}
