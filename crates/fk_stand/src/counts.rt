//! How many messages the lanes are given.

ghost use Rattle.fk_stand.specs.Counts.{LanesAreBounded};

/// A law: after a history no lane was given more messages than there are entries.
pub fn lanes_are_bounded()
    ensures { LanesAreBounded }
{}
