ghost use Rattle.fk_law.specs.LeaderLane.{DoneIsRemovedOrOneMore, MarkBehindSweep, SweptAreCommitted, PublishedAreSwept, PublishedUpToTheMark, PushesBelowTheHeadAreFinished, CommitsAreBeyondTheSweep, PublishedAreCommitted, SweptUpToTheSweep, DoneWerePushed, LeaderWorksAtOrBelowTheHead, LeaderStandsWhereItMay};

/// A law: the pushes that are done are the removed ones, or one more.
pub fn done_is_removed_or_one_more()
    ensures { DoneIsRemovedOrOneMore }
{}

/// A law: the mark is at most the number that was swept, and that is at most one beyond the removed
/// pushes.
pub fn mark_behind_sweep()
    ensures { MarkBehindSweep }
{}

/// A law: a push that is swept is committed.
pub fn swept_are_committed()
    ensures { SweptAreCommitted }
{}

/// A law: a push that is published is committed and swept, and is beyond the mark.
pub fn published_are_swept()
    ensures { PublishedAreSwept }
{}

/// A law: a committed push up to the mark was published.
pub fn published_up_to_the_mark()
    ensures { PublishedUpToTheMark }
{}

/// A law: each push that was removed from the leader lane is dead, or committed and published.
pub fn pushes_below_the_head_are_finished()
    ensures { PushesBelowTheHeadAreFinished }
{}

/// A law: a push that commits is beyond all that is done, swept and published.
pub fn commits_are_beyond_the_sweep()
    ensures { CommitsAreBeyondTheSweep }
{}

/// A law: a published push is committed, and at most the mark.
pub fn published_are_committed()
    ensures { PublishedAreCommitted }
{}

/// A law: a committed push up to the number that was swept last was swept.
pub fn swept_up_to_the_sweep()
    ensures { SweptUpToTheSweep }
{}

/// A law: what is done was pushed.
pub fn done_were_pushed()
    ensures { DoneWerePushed }
{}

/// A law: a leader was started for a push that is at most one beyond the removed ones.
pub fn leader_works_at_or_below_the_head()
    ensures { LeaderWorksAtOrBelowTheHead }
{}

/// A law: a leader stands only where its push has come so far.
pub fn leader_stands_where_it_may()
    ensures { LeaderStandsWhereItMay }
{}
