ghost use Rattle.fk_limits.specs.Turns.{ClockStaysLow, DrainsStayLow, MomentsStayLow, TimesAreShort, TurnsAreFew, TurnsAreMoments, TurnsAreWellFormed, TurnsNameClients};

/// A law: each turn of a deployment that some bytes mean names only clients that there are, numbers
/// that can be written and moments below 2^42; there are at most 65,536 turns, and a lock and a
/// ping last at most 1,000,000. So a clock that each turn takes no further than to its moment, or
/// one lock beyond where it was, stays below 2^42 through all turns and a last drain.
pub fn turns_are_within_limits()
    ensures clients { TurnsNameClients }
    ensures events { TurnsAreWellFormed }
    ensures moments { TurnsAreMoments }
    ensures few { TurnsAreFew }
    ensures times { TimesAreShort }
    ensures moments_low { MomentsStayLow }
    ensures drains_low { DrainsStayLow }
    ensures clock_low { ClockStaysLow }
{}
