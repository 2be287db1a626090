ghost use Rattle.fk_law.specs.Stamping.{FinalBelowTheSweep, PublishedAreStamped, RecordIsTheNode};

/// A law: up to the mark each path's record is at least as new as the commits that edited it, so it
/// shows the tree's node of each number from its stamp up to the mark; and what the commits up to a
/// number leave is final once a greater one was swept.
pub fn record_shows_the_tree()
    ensures stamped { PublishedAreStamped }
    ensures node { RecordIsTheNode }
    ensures stays { FinalBelowTheSweep }
{}
