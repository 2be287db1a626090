ghost use Rattle.fk_law.specs.Sessions.{DrainsBeginWithClients, DrainsNameClients, FollowsAClient, HeartbeatsAreOfClients};

/// A law: each heartbeat and each request is of a client's session.
pub fn follows_a_client()
    ensures beats { HeartbeatsAreOfClients }
    ensures follows { FollowsAClient }
{}

/// A law: the events of a drain name clients.
pub fn drains_name_clients()
    ensures begin { DrainsBeginWithClients }
    ensures next { DrainsNameClients }
{}
