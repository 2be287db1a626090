ghost use Rattle.fk_law_drain.specs.Ending.{DrainsEnd};
ghost use Rattle.fk_law_drain.specs.Falling.{DrainFalls};

/// A law: each event of a drain lowers a rank.
pub fn drain_falls()
    ensures { DrainFalls }
{}

/// A law: each drain comes to its end.
pub fn drains_end()
    ensures { DrainsEnd }
{}
