ghost use Rattle.fk_law_watch.specs.FirstNumbers.{DeploymentsReadByReads, FiresBeyondItsFirst, WatchesAreSetUpToTheMark};

/// A law: what a deployment asks of the tree has the verb of a read.
pub fn deployments_read_by_reads()
    ensures { DeploymentsReadByReads }
{}

/// A law: a watch is set by a read at a number up to the mark.
pub fn watches_are_set_up_to_the_mark()
    ensures { WatchesAreSetUpToTheMark }
{}

/// A law: a watch fires at a push beyond its first number.
pub fn fires_beyond_its_first()
    ensures { FiresBeyondItsFirst }
{}
