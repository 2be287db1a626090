ghost use Rattle.fk_law.specs.Settled.{MessageIsReached, SettlesTheNext, SettledIsRemovedOrOneMore, SettledWereSent, AnsweredIsSettled, AtWorkIsUnpushed, CommittedIsSettled, CommitsOnce};

/// A law: a message that a follower was started for was sent, and is at most one beyond the removed
/// ones.
pub fn message_is_reached()
    ensures { MessageIsReached }
{}

/// A law: what an entry settles is its session's next request.
pub fn settles_the_next()
    ensures { SettlesTheNext }
{}

/// A law: the settled requests of a session are the removed ones, or one more.
pub fn settled_is_removed_or_one_more()
    ensures { SettledIsRemovedOrOneMore }
{}

/// A law: a settled request was sent.
pub fn settled_were_sent()
    ensures { SettledWereSent }
{}

/// A law: a follower that stands before its reply or its end has its request settled.
pub fn answered_is_settled()
    ensures { AnsweredIsSettled }
{}

/// A law: a follower between its session line and its push or refusal has pushed nothing.
pub fn at_work_is_unpushed()
    ensures { AtWorkIsUnpushed }
{}

/// A law: the request of a committed push is settled, and its outcome is the commit.
pub fn committed_is_settled()
    ensures { CommittedIsSettled }
{}

/// A law: a push commits at most once.
pub fn commits_once()
    ensures { CommitsOnce }
{}

/// A law: the requests of a session are settled one after another, and no push commits twice.
pub fn settled_once()
    ensures next { SettlesTheNext }
    ensures settled { SettledIsRemovedOrOneMore }
    ensures once { CommitsOnce }
{
    settles_the_next();
    settled_is_removed_or_one_more();
    commits_once();
}
