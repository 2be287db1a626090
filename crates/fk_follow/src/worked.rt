//! Whole runs of a follower. Each function does nothing; its contract says what the run is.

ghost use Rattle.fk_follow.specs.Worked.{CreateRuns, FaultEnds, OrphanIsRefused};

/// A create locks the parent and the path, pushes, and commits.
pub fn create_runs()
    ensures { CreateRuns }
{}

/// A create under a missing parent is refused, and its client is told.
pub fn orphan_is_refused()
    ensures { OrphanIsRefused }
{}

/// Where the table fails, the follower ends.
pub fn fault_ends()
    ensures { FaultEnds }
{}
