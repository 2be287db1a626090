ghost use Rattle.fk_law.specs.Fitting.{CommitsFit, CommittedAsPushed, FollowerFillsTheSame, LivePushEditsWhatItLocked, LivePushFits, OnlyTheHolderEdits, PushLocksWhatItEdits, StoredTreeIsShown};

/// A law: a live push, filled from what the commits left, fits that, and edits only what was
/// granted to its function.
pub fn live_push_fits()
    ensures fits { LivePushFits }
    ensures locked { LivePushEditsWhatItLocked }
{}

/// A law: what a commit edited was granted to its push's function.
pub fn push_locks_what_it_edits()
    ensures { PushLocksWhatItEdits }
{}

/// A law: where a push commits, each path that it edits was granted to its function last.
pub fn only_the_holder_edits()
    ensures { OnlyTheHolderEdits }
{}

/// A law: each commit fits what those before it left, and the tree after all of them is well formed
/// and shows what their edits show.
pub fn commits_fit()
    ensures fit { CommitsFit }
    ensures shown { StoredTreeIsShown }
{}

/// A law: what is filled from the commits for a follower that is about to push fits what the
/// follower has seen.
pub fn follower_fills_the_same()
    ensures { FollowerFillsTheSame }
{}

/// A law: a push is committed as it would have been at any time since it was pushed.
pub fn committed_as_pushed()
    ensures { CommittedAsPushed }
{}
