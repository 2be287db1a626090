ghost use Rattle.fk_agree.specs.Pushes.{LivePushIsItsMessage, MessageNeverChanges, MessageTellsItsPush, PushHasItsMessage, PushIsItsCommit};

/// A law: what the message of a push applies is what the push was committed as, and, where it can
/// still commit, what the commits would fill it as now.
pub fn push_is_its_commit()
    ensures committed { PushIsItsCommit }
    ensures live { LivePushIsItsMessage }
{}

/// A law: the message of a push tells its function, its request, and the paths that its function
/// was granted.
pub fn message_tells_its_push()
    ensures { MessageTellsItsPush }
{}

/// A law: each push has a message, which never changes.
pub fn push_has_its_message()
    ensures has { PushHasItsMessage }
    ensures keeps { MessageNeverChanges }
{}
