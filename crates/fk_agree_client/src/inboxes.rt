ghost use Rattle.fk_agree_client.specs.Inbox.{HeadIsWhatItTells, InboxSaysItsMessages};

/// A law: the letters of a client's inbox are the texts of the messages that the rules have there,
/// and what is read at its head is what the first message tells, where that can be written.
pub fn inbox_says_its_messages()
    ensures says { InboxSaysItsMessages }
    ensures head { HeadIsWhatItTells }
{}
