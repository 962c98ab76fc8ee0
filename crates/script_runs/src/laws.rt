ghost use Rattle.script_engine.specs.Files.{OneFile};
ghost use Rattle.script_engine.specs.Running.{IsDetermined};
ghost use Rattle.script_engine.specs.Storing.{OneStoredRun};
ghost use Rattle.script_runs.specs.SerialRuns.{ComesSerially, OneText};

/// A script and a setup have one outcome at most.
pub fn one_outcome()
    ensures { IsDetermined ComesSerially }
{}

/// The command writes the texts of the serial run of a script and of its trace, and nothing else.
pub fn serial_text()
    ensures { OneText }
{}

/// The bytes of a file that is to be run determine what is written, and how that ends.
pub fn one_serial_file()
    ensures { OneFile ComesSerially }
{}

/// Over stores too: the script and what the stores held determine what is written, how it ends, and the bases that are
/// saved.
pub fn one_serial_stored_run()
    ensures { OneStoredRun ComesSerially }
{}
