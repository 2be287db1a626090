ghost use Rattle.fk_law_drain.specs.Answering.{BegunAreAnsweredOrKept};

/// A law: each command that a client began has its line, or the client keeps it.
pub fn begun_are_answered_or_kept()
    ensures { BegunAreAnsweredOrKept }
{}
