ghost use Rattle.fk_law.specs.Losing.{DeadPushNeverCommits, OvertakenPushNeverCommits, DeadStaysDead, LockMissIsDead, SettledMissIsOver};

/// A law: a push that is dead never commits.
pub fn dead_push_never_commits()
    ensures { DeadPushNeverCommits }
{}

/// A law: a push that isn't committed, and one of whose paths was granted last to another function,
/// never commits.
pub fn overtaken_push_never_commits()
    ensures { OvertakenPushNeverCommits }
{}

/// A law: a dead push stays dead.
pub fn dead_stays_dead()
    ensures { DeadStaysDead }
{}

/// A law: where the committing of a push misses a lock, the push is dead.
pub fn lock_miss_is_dead()
    ensures { LockMissIsDead }
{}

/// A law: where the committing of a push finds its request settled, the push is dead or committed.
pub fn settled_miss_is_over()
    ensures { SettledMissIsOver }
{}
