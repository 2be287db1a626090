ghost use Rattle.fk_agree_client.specs.Making.{ClientFails, ClientGoesOn, ClientMakesItsOp, ClientPrintsItsLines, NewClientStands, OthersLeaveIt};

/// A law: a new client stands where no history says, and the operation of another leaves a client
/// where it stands.
pub fn clients_stand()
    ensures new { NewClientStands }
    ensures others { OthersLeaveIt }
{}

/// A law: where the services and a client stand as a history says, its operation is the rules';
/// where each service is to fail, it is the one that they say fails.
pub fn client_makes_its_op()
    ensures op { ClientMakesItsOp }
    ensures fails { ClientFails }
{}

/// A law: after its operation a client has printed what the rules say, and stands where the longer
/// history says.
pub fn client_goes_on()
    ensures lines { ClientPrintsItsLines }
    ensures stands { ClientGoesOn }
{}
