ghost use Rattle.script_engine.specs.Files.{OneFile, OneScript};
ghost use Rattle.script_engine.specs.Running.{IsDetermined, TracesAreGathered};
ghost use Rattle.script_engine.specs.Storing.{OneStoredRun};

use crate::clients::RunsClients;

/// Bytes are one script at most.
pub fn one_script()
    ensures { OneScript }
{}

/// If a script and a setup have one outcome at most, the bytes of a file that is to be run determine what is
/// written, and how that ends.
pub fn one_file<R: RunsClients>()
    ensures { IsDetermined R.comes → OneFile R.comes }
{}

/// `trace_file` of `argus_engine` says `yes` of a trace that was written, with the number of the events, if the trace
/// can be read.
pub fn traces_are_gathered()
    ensures { TracesAreGathered }
{}

/// Over stores too: the script and what the stores held then determine what is written, how it ends, and the bases that
/// are saved.
pub fn one_stored_run<R: RunsClients>()
    ensures { IsDetermined R.comes → OneStoredRun R.comes }
{}
