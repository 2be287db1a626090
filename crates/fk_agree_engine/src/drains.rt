ghost use Rattle.fk_agree_engine.specs.Asking.{DrainIsFit, FlightIsTheRules, NextOfDrainIsTheRules, ReadyIsFit, ReadyIsTheRules};

/// A law: where an engine stands as a history says, its functions in flight, what a drain does next
/// and which events would make an operation are what the rules say.
pub fn drain_asks_the_rules()
    ensures flight { FlightIsTheRules }
    ensures next { NextOfDrainIsTheRules }
    ensures ready { ReadyIsTheRules }
{}

/// A law: what the questions of a drain need holds.
pub fn drains_are_fit()
    ensures drain { DrainIsFit }
    ensures ready { ReadyIsFit }
{}
