ghost use Rattle.tracer.specs.Gathered.{GatheredRunsAreServed};
ghost use Rattle.tracer.specs.Leaving.{RunsAreGathered};

/// What is gathered from histories, and is a run, has the laws of every run.
pub fn gathered_runs_are_served()
    ensures { GatheredRunsAreServed }
{}

/// A run is gathered from the histories that it leaves.
pub fn runs_are_gathered()
    ensures { RunsAreGathered }
{}
