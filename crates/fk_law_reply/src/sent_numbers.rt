ghost use Rattle.fk_law_reply.specs.Ledger.{BegunNeverFalls, CommandsOfAnOperationAreEntered, KeptCommandsAreEntered, OnlyBegunWereSent, SentNumberNeverChanges};

/// A law: a client begins its commands one after another, only a begun one was sent, and the number
/// under which it was sent never changes.
pub fn commands_are_begun_in_order()
    ensures rises { BegunNeverFalls }
    ensures sent { OnlyBegunWereSent }
    ensures number { SentNumberNeverChanges }
{}

/// A law: each command that a client keeps is one of the deployment's, with the number under which
/// it was sent, and with the cause where the client itself answers it.
pub fn kept_commands_are_entered()
    ensures kept { KeptCommandsAreEntered }
    ensures after { CommandsOfAnOperationAreEntered }
{}
