ghost use Rattle.fk_law.specs.Operations.{ClientOperationsSay};

/// A law: what each operation of a client says of the client, of its next command and of what it
/// looks for.
pub fn client_operations_say()
    ensures { ClientOperationsSay }
{}
