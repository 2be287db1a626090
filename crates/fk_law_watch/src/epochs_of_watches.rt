ghost use Rattle.fk_law_watch.specs.Epochs.{EpochHasFired, LeaderHoldsACompleteEpoch, UntoldFiredWatchIsInTheEpoch};

/// A law: a leader before a put or its publication holds an epoch of fired watches, which is
/// complete as long as its push isn't published.
pub fn leader_holds_a_complete_epoch()
    ensures { LeaderHoldsACompleteEpoch }
{}

/// A law: each number of the published epoch has fired.
pub fn epoch_has_fired()
    ensures { EpochHasFired }
{}

/// A law: a watch that fired at a push up to the mark and isn't told is in the published epoch.
pub fn untold_fired_watch_is_in_the_epoch()
    ensures { UntoldFiredWatchIsInTheEpoch }
{}
