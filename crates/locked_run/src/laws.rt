//! What is so of each run.
ghost use Rattle.locked_run.specs.Stored.{StampsRise};

/// The events that a lock keeps have rising stamps. None is above the number of the run's events.
pub fn stamps_rise()
    ensures { StampsRise }
{}
