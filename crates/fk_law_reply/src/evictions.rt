ghost use Rattle.fk_law_reply.specs.Evictions.{EvictionIsOfALateHeartbeat, EvictorFoundLate};

/// A law: a request that evicts its session is of a heartbeat that found the session late.
pub fn evictions_are_of_late_heartbeats()
    ensures late { EvictorFoundLate }
    ensures request { EvictionIsOfALateHeartbeat }
{}
