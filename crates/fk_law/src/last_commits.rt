ghost use Rattle.fk_law.specs.Knowing.{LastIsCommitted, LastIsTheGreatest, CommitIsBeyondTheLast, AtWorkKnowsTheLast};

/// A law: the last commit of a session is a committed push.
pub fn last_is_committed()
    ensures { LastIsCommitted }
{}

/// A law: no commit of a session is beyond its last one.
pub fn last_is_the_greatest()
    ensures { LastIsTheGreatest }
{}

/// A law: a push that commits is beyond the last commit of its session.
pub fn commit_is_beyond_the_last()
    ensures { CommitIsBeyondTheLast }
{}

/// A law: where a follower is at work on the request that its session settles next, it knows the
/// session's last commit.
pub fn at_work_knows_the_last()
    ensures { AtWorkKnowsTheLast }
{}
