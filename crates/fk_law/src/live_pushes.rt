ghost use Rattle.fk_law.specs.Losing.{PushIsLiveDeadOrCommitted, LiveCommits, CommitterIsLive};

/// A law: each push is live, dead or committed.
pub fn push_is_live_dead_or_committed()
    ensures { PushIsLiveDeadOrCommitted }
{}

/// A law: a live push commits, whoever tries.
pub fn live_commits()
    ensures { LiveCommits }
{}

/// A law: a push that commits is live.
pub fn committer_is_live()
    ensures { CommitterIsLive }
{}
