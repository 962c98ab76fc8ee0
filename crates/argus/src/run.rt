//! Running a command on files.

ghost use Rattle.std.specs.Prelude.{◌≡◌, IfOk, length};
ghost use Rattle.run_model.specs.Runs.{new_world};

use crate::refusing::refuse;
use crate::stores::{Opens, open_stores, stores_in};
use argus_engine::{
    Ended, Fault, check_script, explain_text, finish, read_script, steps as answer_steps,
    trace_file,
};
use command_line::request::{Check, Picture, Run, Steps, Trace};
use picture::{Window, lay_out, svg};
use run_model::{Setup, SetupFault};
use script_engine::{RunsClients, run_file, run_stored};
use script_runs::Serially;
use script_threads::{InThreads, Watching};
use stable_store::{PlainStable, Stable};
use std::alloc::Global;
use std::fs::{self, File};
use std::io::{self, IsTerminal};
use std::mem;
use std::process::ExitCode;
use std::sync::Wait;
use std::thread::Threads;
use std::time::{Clock, Duration};
use world::{Refused, World};

/// The file that is standard input.
const STANDARD_INPUT: &str = "-";

/// Makes the steps of a file in a world of the setup, and writes their answers to standard output, and after them what
/// is to be explained. The world is a new one, in memory or over new stores in a folder, or one that goes on from the
/// stores there. The status is 1 where the setup is none, where the stores cannot be used, or a line is no step; then
/// nothing is explained or drawn.
pub fn steps<O: Opens>(rt: &HostRuntime, files: &O, given: &Steps<'_>) -> Result<ExitCode, Fault> {
    let Some(setup) = read_setup(rt, given.setup)? else {
        return refuse(rt, "error setup");
    };
    match given.store {
        None if given.reopen => refuse(rt, "error store"),
        None => answer_in_memory(rt, setup, given),
        Some(folder) => match stores_in(rt, files, folder, setup.guardians(), given.reopen)? {
            Some(stores) => answer_over(rt, setup, stores, given),
            None => refuse(rt, "error store"),
        },
    }
}

/// Makes the steps in a new world in memory. The program ends then, so the world's memory is not freed piece by piece.
fn answer_in_memory(rt: &HostRuntime, setup: Setup, given: &Steps<'_>) -> Result<ExitCode, Fault> {
    let mut world = World::in_memory(rt.alloc(), setup)?;
    let status = answer(rt, &mut world, given);
    mem::forget(world);
    status
}

/// Makes the steps in a world over these stores, new ones or those that a stop left.
fn answer_over<S: Stable>(
    rt: &HostRuntime,
    setup: Setup,
    stores: Vec<S>,
    given: &Steps<'_>,
) -> Result<ExitCode, Fault>
    requires { length stores.items ≡ length setup }
{
    let opened = if given.reopen {
        World::reopen(rt.alloc(), setup, stores)
    } else {
        World::begin(rt.alloc(), setup, stores)
    };
    match opened {
        Ok(mut world) => answer(rt, &mut world, given),
        Err((Refused::NotOurs, _)) => refuse(rt, "error store"),
        Err((Refused::Memory, _)) => Err(Fault::Memory),
        Err((Refused::Stable, _)) => Err(Fault::Store),
    }
}

/// Makes the steps in the world, and writes what is to be written of them.
fn answer<S: Stable>(
    rt: &HostRuntime,
    world: &mut World<S>,
    given: &Steps<'_>,
) -> Result<ExitCode, Fault> {
    match answer_file(rt, world, given.file)? {
        Ended::Stopped => Ok(ExitCode::FAILURE),
        Ended::Done => show(rt, world, given.explain, &given.picture),
    }
}

/// Writes what is to be explained of an action, if one is given, and draws a picture, if one is asked for.
fn show<S: Stable>(
    rt: &HostRuntime,
    world: &World<S>,
    action: Option<&str>,
    picture: &Picture<'_>,
) -> Result<ExitCode, Fault> {
    if let Some(action) = action {
        explain(rt, world, action)?;
    }
    if let Some(file) = picture.file {
        let window = Window {
            from: picture.from,
            to: picture.to,
        };
        draw(rt, world, window, file)?;
    }
    Ok(ExitCode::SUCCESS)
}

/// Writes what is to be explained of an action, after the steps of the world.
fn explain<S: Stable>(rt: &HostRuntime, world: &World<S>, action: &str) -> Result<(), Fault> {
    let history = world.history().unpacked()?;
    explain_text(rt.alloc(), &history, action, &mut io::writer(rt))?;
    Ok(())
}

/// Draws the run of the world into a file.
fn draw<S: Stable>(
    rt: &HostRuntime,
    world: &World<S>,
    window: Window,
    file: &str,
) -> Result<(), Fault> {
    let history = world.history().unpacked()?;
    let layout = lay_out(rt.alloc(), world.setup(), history.events(), window)?;
    let document = svg(rt.alloc(), &layout)?;
    let mut output = create(rt, file)?;
    finish(&mut output, document.as_str())
}

/// Writes whether a file is a script, or its first fault, to standard output. The status is 1 where it is none.
pub fn check(rt: &HostRuntime, given: &Check<'_>) -> Result<ExitCode, Fault> {
    let bytes = read_file(rt, given.script)?;
    let ended = check_script(rt.alloc(), bytes.as_slice(), &mut io::writer(rt))?;
    Ok(status_of(ended))
}

/// Runs the script in a file and writes how its clients ended, and the bases of its objects, to standard output. The
/// clients and arms run in threads, unless they are to run one after another. If they run in threads and standard error
/// is a terminal, that shows their progress. The file of the trace, if one is given, is made first, and written before
/// standard output. The status is 1 where the script's file is no script, or where a store is not its own; then the
/// file of the trace is empty. If that file cannot be made, nothing is run. If it cannot be written, the bases are
/// saved, it has a beginning of the trace, and nothing is written to standard output.
///
/// The status is 1 and nothing is done if the seconds are no number from 1 to 4,294,967,295, or if clients are to run
/// one after another and seconds are given. If the seconds are over before the clients have ended, the fault is `Time`,
/// nothing is saved, and the file of the trace is empty.
pub fn run<O: Opens, H: Threads + Wait + Clock + Eprint + Sync>(
    rt: &HostRuntime,
    threads: &H,
    files: &O,
    given: &Run<'_>,
) -> Result<ExitCode, Fault> {
    match (given.serial, given.seconds.map(seconds_in)) {
        (true, None) => run_by(rt, files, given, &mut Serially),
        (true, Some(_)) | (false, Some(None)) => refuse(rt, "error seconds"),
        (false, limit) => {
            let watching = Watching {
                limit: limit.flatten(),
                shows_progress: rt.stderr().is_terminal(),
            };
            run_by(rt, files, given, &mut InThreads::new(threads, watching))
        }
    }
}

/// So many seconds; `None` if the word is no number from 1 to 4,294,967,295.
fn seconds_in(word: &str) -> Option<Duration> {
    match word.parse::<u32>() {
        Ok(0) | Err(_) => None,
        Ok(seconds) => Some(Duration::from_secs(seconds.into())),
    }
}

fn run_by<O: Opens, R: RunsClients>(
    rt: &HostRuntime,
    files: &O,
    given: &Run<'_>,
    runner: &mut R,
) -> Result<ExitCode, Fault>
    requires { R.ready }
{
    let bytes = read_file(rt, given.script)?;
    let mut out = created(rt, given.trace)?;
    let ended = match given.store {
        None => {
            let writer = &mut io::writer(rt);
            run_file(rt.alloc(), runner, bytes.as_slice(), &mut out, writer)?
        }
        Some(folder) => run_over(rt, files, runner, bytes.as_slice(), folder, &mut out)?,
    };
    Ok(status_of(ended))
}

/// The same over the stores in a folder.
fn run_over<O: Opens, R: RunsClients>(
    rt: &HostRuntime,
    files: &O,
    runner: &mut R,
    bytes: &[u8],
    folder: &str,
    out: &mut Option<File>,
) -> Result<Ended, Fault>
    requires { R.ready }
{
    let writer = &mut io::writer(rt);
    let Some(script) = read_script(rt.alloc(), bytes, writer)? else {
        return Ok(Ended::Stopped);
    };
    let Some(mut stores) = open_stores(rt.alloc(), files, folder, &script)? else {
        finish(writer, "error store\n")?;
        return Ok(Ended::Stopped);
    };
    run_stored(
        rt.alloc(),
        runner,
        &script,
        stores.as_mut_slice(),
        out,
        writer,
    )
}

/// The file at the path, made empty, if there is a path.
fn created(rt: &HostRuntime, path: Option<&str>) -> Result<Option<File>, Fault> {
    match path {
        Some(path) => Ok(Some(create(rt, path)?)),
        None => Ok(None),
    }
}

/// The file at the path, made empty.
fn create(rt: &HostRuntime, path: &str) -> Result<File, Fault> {
    match fs::create(rt, path) {
        Ok(file) => Ok(file),
        Err(error) if error.kind() == io::ErrorKind::OutOfMemory => Err(Fault::Memory),
        Err(_) => Err(Fault::Output),
    }
}

/// Writes whether the histories of a trace are one run, to standard output, and after a yes what is to be explained.
/// A picture is drawn after a yes alone. The status is 1 if there is no yes.
pub fn trace(rt: &HostRuntime, given: &Trace<'_>) -> Result<ExitCode, Fault> {
    match gather_file(rt, given.file)? {
        None => Ok(ExitCode::FAILURE),
        Some(world) => show(rt, &world, given.explain, &given.picture),
    }
}

/// Writes whether the histories of a trace are one run. The world that made the run comes with a yes.
fn gather_file(rt: &HostRuntime, file: &str) -> Result<Option<World<PlainStable>>, Fault> {
    let alloc = rt.alloc();
    let begin = |setup| in_memory(alloc, setup);
    if file == STANDARD_INPUT {
        return trace_file(alloc, begin, &mut rt.reader(), &mut io::writer(rt));
    }
    match fs::open(rt, file) {
        Ok(mut input) => trace_file(alloc, begin, &mut input, &mut io::writer(rt)),
        Err(error) => Err(read_fault(&error)),
    }
}

/// A new world in memory.
fn in_memory(alloc: Global, setup: Setup) -> Result<World<PlainStable>, Fault>
    ensures { IfOk result (λ world. world.run ≡ new_world setup) }
{
    Ok(World::in_memory(alloc, setup)?)
}

/// The exit status of a command that ended so.
fn status_of(ended: Ended) -> ExitCode {
    match ended {
        Ended::Done => ExitCode::SUCCESS,
        Ended::Stopped => ExitCode::FAILURE,
    }
}

/// Makes the steps of a file in the world, and writes their answers.
fn answer_file<S: Stable>(
    rt: &HostRuntime,
    world: &mut World<S>,
    file: &str,
) -> Result<Ended, Fault> {
    if file == STANDARD_INPUT {
        return answer_steps(rt.alloc(), world, &mut rt.reader(), &mut io::writer(rt));
    }
    match fs::open(rt, file) {
        Ok(mut input) => answer_steps(rt.alloc(), world, &mut input, &mut io::writer(rt)),
        Err(error) => Err(read_fault(&error)),
    }
}

/// The setup in a file; `None` where the file holds none.
fn read_setup(rt: &HostRuntime, path: &str) -> Result<Option<Setup>, Fault> {
    let bytes = read_file(rt, path)?;
    match Setup::read(rt.alloc(), bytes.as_slice()) {
        Ok(setup) => Ok(Some(setup)),
        Err(SetupFault::Bad) => Ok(None),
        Err(SetupFault::Memory) => Err(Fault::Memory),
    }
}

fn read_file(rt: &HostRuntime, path: &str) -> Result<Vec<u8>, Fault> {
    match fs::read(rt, path) {
        Ok(bytes) => Ok(bytes),
        Err(error) => Err(read_fault(&error)),
    }
}

/// What failed where a file could not be read.
pub fn read_fault(error: &io::Error) -> Fault {
    match error.kind() {
        io::ErrorKind::OutOfMemory => Fault::Memory,
        _ => Fault::Input,
    }
}
