ghost use Rattle.fk_law_drain.specs.Looking.{CommittedIsPublished, LookedForIsPublished, NoLookIsHeld};

/// A law: where no push waits in the leader lane, each committed push is at most the mark, and so
/// is the number that a client looks for.
pub fn looked_for_is_published()
    ensures committed { CommittedIsPublished }
    ensures sought { LookedForIsPublished }
{}

/// A law: where no push and no note waits, and a client has no message, no look of the client is
/// held by a watch.
pub fn no_look_is_held()
    ensures { NoLookIsHeld }
{}
