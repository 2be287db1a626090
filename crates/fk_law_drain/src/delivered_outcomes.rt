ghost use Rattle.fk_law_drain.specs.Delivering.{DonePushIsReplied, RemovedMessageIsRepliedOrCommitted};

/// A law: a request whose message was removed from its session's lane is replied to, or its push
/// isn't done yet.
pub fn removed_message_is_replied_or_committed()
    ensures { RemovedMessageIsRepliedOrCommitted }
{}

/// A law: the request of a committed push that is done is replied to.
pub fn done_push_is_replied()
    ensures { DonePushIsReplied }
{}
