ghost use Rattle.fk_law_watch.specs.SetWatches.{FiredWatchFiredAtItsFirstChange, FiresOnce, FiringNeverChanges, SetOrFiredWereGiven, SetWatchSawNoChange, SetWatchesDiffer, WatchIsSetOrFired};

/// A law: each number that was given is of a watch that is set or that has fired, not both.
pub fn watch_is_set_or_fired()
    ensures { WatchIsSetOrFired }
{}

/// A law: a watch that is set or that has fired has a number that was given.
pub fn set_or_fired_were_given()
    ensures { SetOrFiredWereGiven }
{}

/// A law: a watch fires at most once.
pub fn fires_once()
    ensures { FiresOnce }
{}

/// A law: what a watch fired as never changes.
pub fn firing_never_changes()
    ensures { FiringNeverChanges }
{}

/// A law: two set watches of one session differ in their path or their kind.
pub fn set_watches_differ()
    ensures { SetWatchesDiffer }
{}

/// A law: no swept push beyond its first number changed what a set watch takes.
pub fn set_watch_saw_no_change()
    ensures { SetWatchSawNoChange }
{}

/// A law: a watch fires at the first swept push beyond its first number that changes what it takes,
/// with the first such change.
pub fn fired_watch_fired_at_its_first_change()
    ensures { FiredWatchFiredAtItsFirstChange }
{}
