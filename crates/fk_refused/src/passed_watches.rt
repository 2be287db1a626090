//! Replies that pass a fired watch that their client holds.

ghost use Rattle.fk_refused.specs.Held.{MissingIsWatched, MissingPassesAWatch, NoticeBehindItsReply, OlderWatchIsPassed, OtherClientCloses, OtherClientExpired, OtherClientWasNotified, OtherKindWasNotified, OtherPathWasNotified, ReadPassesAWatch, StatedIsWatched, UnclosedIsWatched};

/// The reply to a set comes before the notification of its own watch.
#[tactic(auto, using(crate::proofs::Held::notice_behind_its_reply))]
pub fn notice_behind_its_reply()
    ensures { NoticeBehindItsReply }
{}

/// A read is answered where its client was not notified.
#[tactic(auto, using(crate::proofs::Held::read_passes_a_watch))]
pub fn read_passes_a_watch()
    ensures { ReadPassesAWatch }
{}

/// A read finds no node where its client was not notified.
#[tactic(auto, using(crate::proofs::Held::missing_passes_a_watch))]
pub fn missing_passes_a_watch()
    ensures { MissingPassesAWatch }
{}

/// A read is answered where its client was notified of another kind of watch.
#[tactic(auto, using(crate::proofs::Held::other_kind_was_notified))]
pub fn other_kind_was_notified()
    ensures { OtherKindWasNotified }
{}

/// A read is answered where its client was notified of another path.
#[tactic(auto, using(crate::proofs::Held::other_path_was_notified))]
pub fn other_path_was_notified()
    ensures { OtherPathWasNotified }
{}

/// A read is answered where another client was notified.
#[tactic(auto, using(crate::proofs::Held::other_client_was_notified))]
pub fn other_client_was_notified()
    ensures { OtherClientWasNotified }
{}

/// A read is answered where another client lost its session.
#[tactic(auto, using(crate::proofs::Held::other_client_expired))]
pub fn other_client_expired()
    ensures { OtherClientExpired }
{}

/// A read is answered where its client watches a node that was missing, and was made.
#[tactic(auto, using(crate::proofs::Held::missing_is_watched))]
pub fn missing_is_watched()
    ensures { MissingIsWatched }
{}

/// A read is answered where its client holds its watch behind a close that failed.
#[tactic(auto, using(crate::proofs::Held::unclosed_is_watched))]
pub fn unclosed_is_watched()
    ensures { UnclosedIsWatched }
{}

/// A read is answered where its client watches by a stat a node that was set.
#[tactic(auto, using(crate::proofs::Held::stated_is_watched))]
pub fn stated_is_watched()
    ensures { StatedIsWatched }
{}

/// A read is answered where its client holds two watches, and the older one fired.
#[tactic(auto, using(crate::proofs::Held::older_watch_is_passed))]
pub fn older_watch_is_passed()
    ensures { OlderWatchIsPassed }
{}

/// A read is answered where its client holds its watch behind the close of another client.
#[tactic(auto, using(crate::proofs::Held::other_client_closes))]
pub fn other_client_closes()
    ensures { OtherClientCloses }
{}
