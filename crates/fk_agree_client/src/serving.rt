ghost use Rattle.fk_agree_client.specs.Serving.{ClientFaultIsWritten, ClientIsFit, ClientIsIdle, ClientIsWritten};

/// A law: an operation of a client leaves the services as the longer history says; so does its
/// fault, once the services that it didn't call are calmed.
pub fn client_is_written()
    ensures written { ClientIsWritten }
    ensures failed { ClientFaultIsWritten }
{}

/// A law: a client has nothing to do exactly where the rules say so, and else what its operation
/// needs holds.
pub fn client_is_fit()
    ensures idle { ClientIsIdle }
    ensures fit { ClientIsFit }
{}
