ghost use Rattle.fk_law_watch.specs.Telling.{AnnouncedHasFired, AnnouncedInNumberOrder, NotesFirstStandInOrder, RemovedNoteIsTold, ToldPushIsAnnounced};

/// A law: the push of a note that was removed from the watch lane is told.
pub fn removed_note_is_told()
    ensures { RemovedNoteIsTold }
{}

/// A law: each watch that a told push fired is announced.
pub fn told_push_is_announced()
    ensures { ToldPushIsAnnounced }
{}

/// A law: an announced watch has fired, at a push up to the mark.
pub fn announced_has_fired()
    ensures { AnnouncedHasFired }
{}

/// A law: a push that fired something has a note before each note of a greater push.
pub fn notes_first_stand_in_order()
    ensures { NotesFirstStandInOrder }
{}

/// A law: watches are announced in the order of the pushes that fired them.
pub fn announced_in_number_order()
    ensures { AnnouncedInNumberOrder }
{}
