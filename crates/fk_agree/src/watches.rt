ghost use Rattle.fk_agree.specs.Watched.{EpochIsTheRules, FiredAreTheRules, NewWatchesStand, RegistrationIsWritten, SweepIsWritten, ToldIsWritten, WatchesStay};

/// A law: a new table of watches is what the rules say of no history, and a line that neither
/// registers a watch, nor sweeps, nor tells all that a push fired leaves the table.
pub fn watches_start_and_stay()
    ensures new { NewWatchesStand }
    ensures stays { WatchesStay }
{}

/// A law: a registration sets its watch under the number that its line tells.
pub fn registration_is_written()
    ensures { RegistrationIsWritten }
{}

/// A law: a sweep moves the watches that its push's touches fire, and what a push fired leaves once
/// it is told.
pub fn sweep_is_written()
    ensures swept { SweepIsWritten }
    ensures told { ToldIsWritten }
{}

/// A law: what the table lists of the fired watches is what the rules list, and so is its epoch.
pub fn fired_are_the_rules()
    ensures fired { FiredAreTheRules }
    ensures epoch { EpochIsTheRules }
{}
