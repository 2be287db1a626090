ghost use Rattle.fk_law_held.specs.Announced.{InboxTellsOfAnnouncedWatches, LookPassesNoHeldWatch, ToldWatchIsOfItsClient, WaitingReadIsClean};

/// A law: a watch function tells the client of a watch that it has fired.
pub fn told_watch_is_of_its_client()
    ensures { ToldWatchIsOfItsClient }
{}

/// A law: a held watch that was announced stands in its client's inbox.
pub fn inbox_tells_of_announced_watches()
    ensures { InboxTellsOfAnnouncedWatches }
{}

/// A law: at a look that is ok, and while a read waits for its registration, each held watch that
/// has fired did so beyond the mark, or beyond the read's number.
pub fn looks_pass_no_held_watch()
    ensures look { LookPassesNoHeldWatch }
    ensures waiting { WaitingReadIsClean }
{}
