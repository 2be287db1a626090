ghost use Rattle.fk_law_watch.specs.Counts.{GivenAreBounded, NotesAreBounded, PushesAreBounded, SendsAreBounded, StartsAreBounded};

/// A law: no history has more starts, pushes, messages of a session's lane, notes or numbers of
/// watches than it has entries.
pub fn counts_are_bounded()
    ensures starts { StartsAreBounded }
    ensures pushes { PushesAreBounded }
    ensures sends { SendsAreBounded }
    ensures notes { NotesAreBounded }
    ensures given { GivenAreBounded }
{}
