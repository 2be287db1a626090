ghost use Rattle.fk_law.specs.Requests.{SentHasARequest, RequestWasSent, RequestNeverChanges, PushAsksForItsRequest, PushedNeverChanges, CommittedIsFilled, FilledIsCommitted, CommittedNeverChanges};

/// A law: each message that was sent has a request.
pub fn sent_has_a_request()
    ensures { SentHasARequest }
{}

/// A law: only a message that was sent has a request.
pub fn request_was_sent()
    ensures { RequestWasSent }
{}

/// A law: the request of a message never changes.
pub fn request_never_changes()
    ensures { RequestNeverChanges }
{}

/// A law: a push asks for the request of its message.
pub fn push_asks_for_its_request()
    ensures { PushAsksForItsRequest }
{}

/// A law: what a push asks for never changes.
pub fn pushed_never_changes()
    ensures { PushedNeverChanges }
{}

/// A law: a committed push stands among what was committed.
pub fn committed_is_filled()
    ensures { CommittedIsFilled }
{}

/// A law: what stands among what was committed is a committed push.
pub fn filled_is_committed()
    ensures { FilledIsCommitted }
{}

/// A law: a push as it was committed never changes.
pub fn committed_never_changes()
    ensures { CommittedNeverChanges }
{}
