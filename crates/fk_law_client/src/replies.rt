ghost use Rattle.fk_law_client.specs.Ordering.{RepliesAreInOrder};
ghost use Rattle.fk_law_client.specs.Unfit.{UnfitCommandsAreRefused};

/// A law: each client's replies are in the order of its commands, one for each at most.
pub fn replies_are_in_order()
    ensures { RepliesAreInOrder }
{}

/// A law: unfit commands, and they alone, are refused for their arguments.
pub fn unfit_commands_are_refused()
    ensures { UnfitCommandsAreRefused }
{}
