//! What a command line asks for.

/// What the words ask for.
#[derive(Clone, Copy, Drop)]
pub enum Command<'a> {
    /// Answers the steps of a file at a setup.
    Steps(Steps<'a>),
    /// Says whether a file is a script.
    Check(Check<'a>),
    /// Runs the clients of a script.
    Run(Run<'a>),
    /// Says whether the histories of a trace are one run.
    Trace(Trace<'a>),
}

/// What the answering of steps is given.
#[derive(Clone, Copy, Drop)]
pub struct Steps<'a> {
    /// The path of the setup.
    pub setup: &'a str,
    /// The path of the steps; `-` is standard input.
    pub file: &'a str,
    /// The action to explain after the answers.
    pub explain: Option<&'a str>,
    /// The folder that keeps the guardians' stores; with none they last as long as the run.
    pub store: Option<&'a str>,
    /// Whether the stores that are there are opened again; else they are made.
    pub reopen: bool,
    /// The picture to draw after the answers.
    pub picture: Picture<'a>,
}

/// What the checking of a script is given.
#[derive(Clone, Copy, Drop)]
pub struct Check<'a> {
    /// The path of the script.
    pub script: &'a str,
}

/// What the running of a script is given.
#[derive(Clone, Copy, Drop)]
pub struct Run<'a> {
    /// The path of the script.
    pub script: &'a str,
    /// The folder that keeps the guardians' objects between runs; with none they last as long as the run.
    pub store: Option<&'a str>,
    /// Whether clients and arms run one after another; else each runs in a thread of its own.
    pub serial: bool,
    /// The file to which the trace of the run is written.
    pub trace: Option<&'a str>,
    /// For how many seconds clients may run in threads; with none they may run for ever.
    pub seconds: Option<&'a str>,
}

/// What the gathering of a trace is given.
#[derive(Clone, Copy, Drop)]
pub struct Trace<'a> {
    /// The path of the trace; `-` is standard input.
    pub file: &'a str,
    /// The action to explain if the histories are one run.
    pub explain: Option<&'a str>,
    /// The picture to draw if the histories are one run.
    pub picture: Picture<'a>,
}

/// What the drawing of a picture is given.
#[derive(Clone, Copy, Drop)]
pub struct Picture<'a> {
    /// The path of the picture; with none no picture is drawn.
    pub file: Option<&'a str>,
    /// The first event to show.
    pub from: Option<u64>,
    /// The last event to show.
    pub to: Option<u64>,
}

/// Why words are no command.
#[derive(Drop)]
pub enum CommandFault {
    /// What clap says: a mistake in the words, help or the version that was asked for, or out of memory.
    Said(clap::Error),
    /// A part of the command is not there.
    Incomplete,
}

impl From<clap::Error> for CommandFault {
    ghost use Rattle.std.specs.Prelude.{◌≡◌};
    ghost use Rattle.command_line.specs.declared.request.CommandFault.TheVariants.{Said};

    ghost from_gives = { λ error e. e ≡ Said error };

    fn from(error: clap::Error) -> CommandFault {
        CommandFault::Said(error)
    }
}
