//! The worked runs of the rules, as schedules.

ghost use Rattle.fk_runs.specs.Known.{CloseOfSeveralEnds, CloseOfSeveralFollows, CrashBeforeCommitEnds, CrashBeforeCommitFollows, CreateThenGetEnds, CreateThenGetFollows, EvictionEnds, EvictionFollows, FailuresEnds, FailuresFollows, LateLeaderEnds, LateLeaderFollows, LockPassedOnEnds, LockPassedOnFollows, MultiEnds, MultiFollows, OwnWatchEnds, OwnWatchFollows, ReadHeldEnds, ReadHeldFollows, RefusalAheadEnds, RefusalAheadFollows, RegistrationPassedEnds, RegistrationPassedFollows};

/// A close removes the ephemeral nodes of its session.
#[tactic(auto, using(crate::proofs::Known::close_of_several_follows, crate::proofs::Known::close_of_several_ends))]
pub fn close_of_several()
    ensures follows { CloseOfSeveralFollows }
    ensures ends { CloseOfSeveralEnds }
{}

/// A follower stops between its push and its commit, and a leader commits it.
#[tactic(auto, using(crate::proofs::Known::crash_before_commit_follows, crate::proofs::Known::crash_before_commit_ends))]
pub fn crash_before_commit()
    ensures follows { CrashBeforeCommitFollows }
    ensures ends { CrashBeforeCommitEnds }
{}

/// A client creates a node and reads it.
#[tactic(auto, using(crate::proofs::Known::create_then_get_follows, crate::proofs::Known::create_then_get_ends))]
pub fn create_then_get()
    ensures follows { CreateThenGetFollows }
    ensures ends { CreateThenGetEnds }
{}

/// A heartbeat evicts a session that doesn't answer.
#[tactic(auto, using(crate::proofs::Known::eviction_follows, crate::proofs::Known::eviction_ends))]
pub fn eviction()
    ensures follows { EvictionFollows }
    ensures ends { EvictionEnds }
{}

/// Services fail: each command is answered so, and the others go on.
#[tactic(auto, using(crate::proofs::Known::failures_follows, crate::proofs::Known::failures_ends))]
pub fn failures()
    ensures follows { FailuresFollows }
    ensures ends { FailuresEnds }
{}

/// A leader that comes late changes nothing.
#[tactic(auto, using(crate::proofs::Known::late_leader_follows, crate::proofs::Known::late_leader_ends))]
pub fn late_leader()
    ensures follows { LateLeaderFollows }
    ensures ends { LateLeaderEnds }
{}

/// A lock runs out and passes on: its first holder is told that it was lost.
#[tactic(auto, using(crate::proofs::Known::lock_passed_on_follows, crate::proofs::Known::lock_passed_on_ends))]
pub fn lock_passed_on()
    ensures follows { LockPassedOnFollows }
    ensures ends { LockPassedOnEnds }
{}

/// Requests of several parts: made, refused as a whole, and deleted.
#[tactic(auto, using(crate::proofs::Known::multi_follows, crate::proofs::Known::multi_ends))]
pub fn multi()
    ensures follows { MultiFollows }
    ensures ends { MultiEnds }
{}

/// A client is told of its own change before the reply to it.
#[tactic(auto, using(crate::proofs::Known::own_watch_follows, crate::proofs::Known::own_watch_ends))]
pub fn own_watch()
    ensures follows { OwnWatchFollows }
    ensures ends { OwnWatchEnds }
{}

/// A read is held until its client has been told of a watch that fired.
#[tactic(auto, using(crate::proofs::Known::read_held_follows, crate::proofs::Known::read_held_ends))]
pub fn read_held()
    ensures follows { ReadHeldFollows }
    ensures ends { ReadHeldEnds }
{}

/// A refusal speaks of a commit that isn't published yet: its client looks until it is.
#[tactic(auto, using(crate::proofs::Known::refusal_ahead_follows, crate::proofs::Known::refusal_ahead_ends))]
pub fn refusal_ahead()
    ensures follows { RefusalAheadFollows }
    ensures ends { RefusalAheadEnds }
{}

/// A registration that a sweep has passed is made again.
#[tactic(auto, using(crate::proofs::Known::registration_passed_follows, crate::proofs::Known::registration_passed_ends))]
pub fn registration_passed()
    ensures follows { RegistrationPassedFollows }
    ensures ends { RegistrationPassedEnds }
{}
