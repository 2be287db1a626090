ghost use Rattle.fk_law_watch.specs.Registering.{WatchesAreRegistered};

/// A law: a watch is set by a read that asks for it, at a number that no sweep of its path passed.
pub fn watches_are_registered()
    ensures { WatchesAreRegistered }
{}
