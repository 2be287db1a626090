ghost use Rattle.fk_law_client.specs.Kept.{KeptCommandsHaveTheirSource};

/// A law: each command that a client keeps after an operation was kept before it, or was told or
/// begun by it.
pub fn kept_commands_have_their_source()
    ensures { KeptCommandsHaveTheirSource }
{}
