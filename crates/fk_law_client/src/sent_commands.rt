ghost use Rattle.fk_law_client.specs.Tracking.{SentCommandsAreTracked};

/// A law: the unanswered commands of a client are its last ones, in order, and what it knows of
/// each is true.
pub fn sent_commands_are_tracked()
    ensures { SentCommandsAreTracked }
{}
