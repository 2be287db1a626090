ghost use Rattle.fk_law_client.specs.Inboxes.{InboxMessagesAreTrue};

/// A law: what a message of an inbox says of a request or a watch is true.
pub fn inbox_messages_are_true()
    ensures { InboxMessagesAreTrue }
{}
