ghost use Rattle.fk_law.specs.Closing.{AtWorkIsOpen, ClosedHasNoLivePush, NoCommitAfterClose};

/// A law: where a follower is at work on the request that its session settles next, no close of the
/// session was committed.
pub fn at_work_is_open()
    ensures { AtWorkIsOpen }
{}

/// A law: a closed session has no push of the request that it settles next.
pub fn closed_has_no_live_push()
    ensures { ClosedHasNoLivePush }
{}

/// A law: nothing of a session commits after a close of it was committed.
pub fn no_commit_after_close()
    ensures { NoCommitAfterClose }
{}
