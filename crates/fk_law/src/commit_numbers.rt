ghost use Rattle.fk_law.specs.Numbering.{CloseListsAll, ClosedSessionOwnsNothing, CommitFitsAtItsNumber, CommitsRise, LaterNumbersLeave, LivePushIsNewest};

/// A law: a live push is beyond the last commit of its session and of each path that its function
/// was granted, and each commit is beyond those before it that edited one of its paths, or were of
/// its session.
pub fn commits_rise()
    ensures live { LivePushIsNewest }
    ensures all { CommitsRise }
{}

/// A law: each commit fits what those of lesser numbers leave, whenever they were made; and commits
/// beyond a number that don't edit a path count for nothing there.
pub fn commit_fits_at_its_number()
    ensures fits { CommitFitsAtItsNumber }
    ensures others { LaterNumbersLeave }
{}

/// A law: a live close removes all that its session owns at its number, and at each beyond it.
pub fn close_lists_all()
    ensures { CloseListsAll }
{}

/// A law: a closed session owns no node.
pub fn closed_session_owns_nothing()
    ensures { ClosedSessionOwnsNothing }
{}
