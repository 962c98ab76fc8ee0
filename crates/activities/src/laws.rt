ghost use Rattle.activities.specs.Making.{EarlierIsLeftAlone};
ghost use Rattle.activities.specs.Runs.{SerialRunsAreRun};

/// Clients commit, abort and close no action that began before them. No guardian goes down or comes up by their steps.
pub fn earlier_is_left_alone()
    ensures { EarlierIsLeftAlone }
{}

/// A serial run of any script, from any world whose past is a run: the clients run one after another, each to its
/// end. A client's end names the action that its `top` step began, or none where that was refused, and the `top`
/// steps that were made began exactly the actions so named. An end says committed exactly where that action has
/// committed. Every action that was begun has ended. Each step begins a top action, or is about an action that was
/// begun within the run.
pub fn serial_runs_are_run()
    ensures { SerialRunsAreRun }
{}
