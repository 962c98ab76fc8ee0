//! The command line, as clap reads it.

ghost use Rattle.std.specs.Prelude.{◌≡◌, false, map, IfOk, IfErr, IfSome, IsNone};
ghost use Rattle.clap.specs.Words.{app_of, found_of, rows_of, rule_of, subcommand_rows_of};
ghost use Rattle.command_line.specs.declared.request.Command.{Command};
ghost use Rattle.command_line.specs.declared.request.Check.{Check};
ghost use Rattle.command_line.specs.declared.request.Run.{Run};
ghost use Rattle.command_line.specs.declared.request.Steps.{Steps};
ghost use Rattle.command_line.specs.declared.request.Trace.{Trace};
ghost use Rattle.command_line.specs.Words.{IsCheckGiven, IsCommand, IsFault, IsFlag, IsFound, IsNumber, IsPictureGiven, IsRunGiven, IsStepsGiven, IsTraceGiven, argus_app, check_app, counted, flag, needed, optional, run_app, steps_app, trace_app, with_picture};

use crate::request::{self, CommandFault};
use clap::builder::ValueParser;
use clap::{Arg, ArgAction, ArgMatches};
use std::alloc::{AllocError, Global};

/// The version that `--version` prints.
const VERSION: &str = "0.1.0";

/// The command that the words ask for, which come without the program's own name. `Said` comes where clap refuses the
/// words, where they ask for help or the version, and where memory runs out; its kind tells these apart, and its text
/// is for the user. `Incomplete` comes only where the words are no command.
pub fn command<'a>(
    alloc: Global,
    words: &'a [&'a str],
) -> Result<request::Command<'a>, CommandFault>
    ensures found { IfOk result (IsCommand (map (λ word. word.now) words.entry.now)) }
    ensures refused { IfErr result (IsFault (map (λ word. word.now) words.entry.now)) }
{
    let matches = match definition(alloc) {
        Ok(argus) => argus.try_get_matches_from(words)?,
        Err(refused) => return Err(CommandFault::Said(clap::Error::from(refused))),
    };
    match taken(&matches) {
        Some(found) => Ok(found),
        None => Err(CommandFault::Incomplete),
    }
}

/// The command of what clap found.
fn taken<'a>(matches: &ArgMatches<'a>) -> Option<request::Command<'a>>
    ensures found { IfSome result (IsFound (subcommand_rows_of matches.now)) }
    ensures none { IsNone result → (command : Command)
        → IsFound (subcommand_rows_of matches.now) command → ⊥ }
{
    match matches.subcommand() {
        Some(("steps", found)) => Some(request::Command::Steps(steps_given(found)?)),
        Some(("check", found)) => Some(request::Command::Check(check_given(found)?)),
        Some(("run", found)) => Some(request::Command::Run(run_given(found)?)),
        Some(("trace", found)) => Some(request::Command::Trace(trace_given(found)?)),
        _ => None,
    }
}

#[tactic(auto, using(crate::proofs::Finding::word_is, crate::proofs::Finding::no_word, crate::proofs::Finding::no_setup, crate::proofs::Finding::no_file))]
fn steps_given<'a>(found: &ArgMatches<'a>) -> Option<request::Steps<'a>>
    ensures found { IfSome result (IsStepsGiven (rows_of (found_of found.now))) }
    ensures none { IsNone result → (given : Steps)
        → IsStepsGiven (rows_of (found_of found.now)) given → ⊥ }
{
    Some(request::Steps {
        setup: found.get_str("SETUP")?,
        file: found.get_str("FILE")?,
        explain: found.get_str("explain"),
        store: found.get_str("store"),
        reopen: is_set(found, "reopen"),
        picture: picture_given(found),
    })
}

#[tactic(auto, using(crate::proofs::Finding::word_is, crate::proofs::Finding::no_word, crate::proofs::Finding::no_script_to_check))]
fn check_given<'a>(found: &ArgMatches<'a>) -> Option<request::Check<'a>>
    ensures found { IfSome result (IsCheckGiven (rows_of (found_of found.now))) }
    ensures none { IsNone result → (given : Check)
        → IsCheckGiven (rows_of (found_of found.now)) given → ⊥ }
{
    Some(request::Check {
        script: found.get_str("SCRIPT")?,
    })
}

#[tactic(auto, using(crate::proofs::Finding::word_is, crate::proofs::Finding::no_word, crate::proofs::Finding::no_script_to_run))]
fn run_given<'a>(found: &ArgMatches<'a>) -> Option<request::Run<'a>>
    ensures found { IfSome result (IsRunGiven (rows_of (found_of found.now))) }
    ensures none { IsNone result → (given : Run)
        → IsRunGiven (rows_of (found_of found.now)) given → ⊥ }
{
    Some(request::Run {
        script: found.get_str("SCRIPT")?,
        store: found.get_str("store"),
        serial: is_set(found, "serial"),
        trace: found.get_str("trace"),
        seconds: found.get_str("seconds"),
    })
}

#[tactic(auto, using(crate::proofs::Finding::word_is, crate::proofs::Finding::no_word, crate::proofs::Finding::no_trace))]
fn trace_given<'a>(found: &ArgMatches<'a>) -> Option<request::Trace<'a>>
    ensures found { IfSome result (IsTraceGiven (rows_of (found_of found.now))) }
    ensures none { IsNone result → (given : Trace)
        → IsTraceGiven (rows_of (found_of found.now)) given → ⊥ }
{
    let file = found.get_str("FILE")?;
    let explain = found.get_str("explain");
    let picture = picture_given(found);
    Some(request::Trace {
        file,
        explain,
        picture,
    })
}

fn picture_given<'a>(found: &ArgMatches<'a>) -> request::Picture<'a>
    ensures { IsPictureGiven (rows_of (found_of found.now)) result }
{
    let file = found.get_str("picture");
    let from = number(found, "from");
    let to = number(found, "to");
    request::Picture { file, from, to }
}

/// The number under the id.
fn number(found: &ArgMatches<'_>, id: &str) -> Option<u64>
    ensures { IsNumber id.now (rows_of (found_of found.now)) result }
{
    found.get_one(id)
}

/// Whether a flag is set, as `get_flag` gives it, whose contract says nothing of a value that is no `bool`.
fn is_set(found: &ArgMatches<'_>, id: &str) -> bool
    ensures { IsFlag id.now (rows_of (found_of found.now)) result }
{
    found.get_one(id).unwrap_or(false)
}

/// The command line of the program, for clap.
fn definition<'a>(alloc: Global) -> Result<clap::Command<'a>, AllocError>
    ensures { IfOk result (λ argus. app_of argus ≡ argus_app) }
{
    let argus = clap::Command::new(alloc, "argus")
        .bin_name("argus")?
        .version(VERSION)
        .about("Runs nested transactions of guardians, and scripts of them")
        .no_binary_name(true)
        .arg_required_else_help(true)
        .subcommand_required(true);
    argus
        .subcommand(steps(alloc)?)?
        .subcommand(check(alloc)?)?
        .subcommand(run(alloc)?)?
        .subcommand(trace(alloc)?)
}

fn steps<'a>(alloc: Global) -> Result<clap::Command<'a>, AllocError>
    ensures { IfOk result (λ steps. app_of steps ≡ steps_app) }
{
    let steps = clap::Command::new(alloc, "steps")
        .about("Makes the steps of a file and writes their answers")
        .after_help("Example: argus steps examples/transfer/setup.json examples/transfer/steps")
        .arg(needed(
            alloc,
            "SETUP",
            "The JSON document of the guardians and their objects",
        ))?
        .arg(needed(alloc, "FILE", "The steps, one a line; - is standard input"))?
        .arg(optional(
            alloc,
            "explain",
            "ACTION",
            "Writes, after the answers, what the action sees, by place in the serial order",
        ))?
        .arg(optional(
            alloc,
            "store",
            "DIR",
            "Keeps the stable store of guardian N in DIR/gN.db, a new file",
        ))?
        .arg(flag(
            alloc,
            "reopen",
            "Goes on from the stores in DIR after a stop, in place of making new ones",
        ))?;
    with_picture(alloc, steps)
}

fn check<'a>(alloc: Global) -> Result<clap::Command<'a>, AllocError>
    ensures { IfOk result (λ check. app_of check ≡ check_app) }
{
    clap::Command::new(alloc, "check")
        .about("Says whether a file is a script, or which fault is its first")
        .after_help("Example: argus check examples/scripts/take/script.json")
        .arg(needed(
            alloc,
            "SCRIPT",
            "The JSON document of guardians, handlers and clients",
        ))
}

fn run<'a>(alloc: Global) -> Result<clap::Command<'a>, AllocError>
    ensures { IfOk result (λ run. app_of run ≡ run_app) }
{
    clap::Command::new(alloc, "run")
        .about(
            "Runs the clients of a script and writes how they ended, and then the base of each object",
        )
        .after_help("Example: argus run --serial examples/scripts/reservations/script.json")
        .arg(needed(
            alloc,
            "SCRIPT",
            "The JSON document of guardians, handlers and clients",
        ))?
        .arg(flag(
            alloc,
            "serial",
            "Runs clients and arms one after another, in place of each in a thread of its own",
        ))?
        .arg(optional(
            alloc,
            "store",
            "DIR",
            "Keeps the objects of guardian N in DIR/gN.db: takes what is there in place of the script's contents, and saves the bases at the end",
        ))?
        .arg(optional(
            alloc,
            "trace",
            "OUT",
            "Writes the trace of the run to OUT, before the clients' ends",
        ))?
        .arg(optional(
            alloc,
            "seconds",
            "N",
            "Gives up a run in threads that has not ended after N seconds, and saves nothing of it",
        ))
}

fn trace<'a>(alloc: Global) -> Result<clap::Command<'a>, AllocError>
    ensures { IfOk result (λ trace. app_of trace ≡ trace_app) }
{
    let trace = clap::Command::new(alloc, "trace")
        .about(
            "Says whether the histories of a trace are one run, or at which stamp they fail first",
        )
        .after_help("Example: argus trace --explain 1 examples/traces/take/trace")
        .arg(needed(
            alloc,
            "FILE",
            "The trace: a setup line, and a line an event; - is standard input",
        ))?
        .arg(optional(
            alloc,
            "explain",
            "ACTION",
            "Writes, after a yes, what the action sees, by place in the serial order",
        ))?;
    with_picture(alloc, trace)
}

/// The command with the options of a picture.
fn with_picture<'a>(
    alloc: Global,
    command: clap::Command<'a>,
) -> Result<clap::Command<'a>, AllocError>
    ensures { IfOk result (λ new. app_of new ≡ with_picture (app_of command.entry)) }
{
    command
        .arg(optional(
            alloc,
            "picture",
            "OUT",
            "Draws the run into the file OUT, a picture in SVG of 2,000 events at most",
        ))?
        .arg(counted(
            alloc,
            "from",
            "The first event of the picture; with none it shows the last 2,000",
        ))?
        .arg(counted(alloc, "to", "The last event of the picture"))
}

/// An argument that has to be there.
fn needed<'a>(alloc: Global, id: &'a str, help: &'a str) -> Arg<'a>
    ensures rule { rule_of result ≡ needed id.now }
    ensures local { result.global ≡ false }
{
    Arg::new(alloc, id).help(help).required(true)
}

/// An option with a value.
fn optional<'a>(alloc: Global, id: &'a str, value: &'a str, help: &'a str) -> Arg<'a>
    ensures rule { rule_of result ≡ optional id.now }
    ensures local { result.global ≡ false }
{
    Arg::new(alloc, id).long(id).value_name(value).help(help)
}

/// An option with the number of an event.
fn counted<'a>(alloc: Global, id: &'a str, help: &'a str) -> Arg<'a>
    ensures rule { rule_of result ≡ counted id.now }
    ensures local { result.global ≡ false }
{
    optional(alloc, id, "EVENT", help).value_parser(ValueParser::unsigned(1, u64::MAX))
}

/// An option that is there or not.
fn flag<'a>(alloc: Global, id: &'a str, help: &'a str) -> Arg<'a>
    ensures rule { rule_of result ≡ flag id.now }
    ensures local { result.global ≡ false }
{
    Arg::new(alloc, id)
        .long(id)
        .action(ArgAction::SetTrue)
        .help(help)
}
