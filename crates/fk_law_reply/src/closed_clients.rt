ghost use Rattle.fk_law_reply.specs.ClosedClients.{ClosedClientsAreRight, ExpiredByAnOperation, ExpiredMetAClosedSession};

/// A law: a client that knows its session as closed is right, and so is each refusal of its own for
/// that.
pub fn closed_clients_are_right()
    ensures right { ClosedClientsAreRight }
    ensures kept { ExpiredMetAClosedSession }
    ensures after { ExpiredByAnOperation }
{}
