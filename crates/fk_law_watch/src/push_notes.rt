ghost use Rattle.fk_law_watch.specs.Noting.{FiredAtItsPush, FiredIsListedUntilTold, FiredListInHand, FiredOfAPush, FiredPushIsNotedBeforeDone, NoteTellsWhatItsPushFired};

/// A law: of what a push fired, all is listed until it is told, and nothing after.
pub fn fired_is_listed_until_told()
    ensures { FiredIsListedUntilTold }
{}

/// A law: what a push fired are the watches that fired at it.
pub fn fired_at_its_push()
    ensures at { FiredAtItsPush }
    ensures of { FiredOfAPush }
{}

/// A law: a leader before a put, its publication or its notification has in hand all that its push
/// fired, or nothing where it was told already.
pub fn fired_list_in_hand()
    ensures { FiredListInHand }
{}

/// A law: a note tells all that its push fired, which is something, and its push is published.
pub fn note_tells_what_its_push_fired()
    ensures { NoteTellsWhatItsPushFired }
{}

/// A law: a push that fired something is noted once it is done.
pub fn fired_push_is_noted_before_done()
    ensures { FiredPushIsNotedBeforeDone }
{}
