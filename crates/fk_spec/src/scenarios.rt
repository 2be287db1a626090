//! Worked runs, evaluated by the rules.

ghost use Rattle.fk_spec.specs.CloseOfSeveral.{CloseOfSeveralIsPlayed};
ghost use Rattle.fk_spec.specs.CrashBeforeCommit.{CrashBeforeCommitIsPlayed};
ghost use Rattle.fk_spec.specs.CreateThenGet.{CreateThenGetIsPlayed};
ghost use Rattle.fk_spec.specs.Eviction.{EvictionIsPlayed};
ghost use Rattle.fk_spec.specs.Failures.{FailuresIsPlayed};
ghost use Rattle.fk_spec.specs.LateLeader.{LateLeaderIsPlayed};
ghost use Rattle.fk_spec.specs.LockPassedOn.{LockPassedOnIsPlayed};
ghost use Rattle.fk_spec.specs.Multi.{MultiIsPlayed};
ghost use Rattle.fk_spec.specs.OwnWatch.{OwnWatchIsPlayed};
ghost use Rattle.fk_spec.specs.ReadHeld.{ReadHeldIsPlayed};
ghost use Rattle.fk_spec.specs.RefusalAhead.{RefusalAheadIsPlayed};
ghost use Rattle.fk_spec.specs.RegistrationPassed.{RegistrationPassedIsPlayed};
ghost use Rattle.fk_spec.specs.Scenarios.{CreateIsPlayed, NoPathIsPlayed, OrphanIsPlayed, RootIsPlayed};

/// A client creates a node right under the root.
pub fn create_is_played()
    ensures { CreateIsPlayed }
{}

/// A create under a missing parent is refused.
pub fn orphan_is_refused()
    ensures { OrphanIsPlayed }
{}

/// A create of the root is refused.
pub fn root_is_refused()
    ensures { RootIsPlayed }
{}

/// A create at no path is refused by its client.
pub fn no_path_is_refused()
    ensures { NoPathIsPlayed }
{}

/// A client creates a node and reads it.
pub fn create_then_get_is_played()
    ensures { CreateThenGetIsPlayed }
{}

/// A refusal speaks of a commit that isn't published yet: its client looks until it is.
pub fn refusal_waits_for_the_mark()
    ensures { RefusalAheadIsPlayed }
{}

/// A follower stops between its push and its commit, and a leader commits it.
pub fn crash_before_commit_is_played()
    ensures { CrashBeforeCommitIsPlayed }
{}

/// A lock runs out and passes on: its first holder is told that it was lost.
pub fn lock_that_passed_on_is_lost()
    ensures { LockPassedOnIsPlayed }
{}

/// A leader that comes late changes nothing.
pub fn late_leader_changes_nothing()
    ensures { LateLeaderIsPlayed }
{}

/// A read is held until its client has been told of a watch that fired.
pub fn read_is_held_by_a_watch()
    ensures { ReadHeldIsPlayed }
{}

/// A registration that a sweep has passed is made again.
pub fn registration_passed_by_a_sweep()
    ensures { RegistrationPassedIsPlayed }
{}

/// A heartbeat evicts a session that doesn't answer.
pub fn eviction_is_played()
    ensures { EvictionIsPlayed }
{}

/// A close removes the ephemeral nodes of its session.
pub fn close_removes_ephemeral_nodes()
    ensures { CloseOfSeveralIsPlayed }
{}

/// Services fail: each command is answered so, and the others go on.
pub fn failures_are_answered()
    ensures { FailuresIsPlayed }
{}

/// A client is told of its own change before the reply to it.
pub fn own_watch_is_told_first()
    ensures { OwnWatchIsPlayed }
{}

/// Requests of several parts: made, refused as a whole, and deleted.
pub fn multi_is_played()
    ensures { MultiIsPlayed }
{}
