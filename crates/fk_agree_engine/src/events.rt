ghost use Rattle.fk_agree_engine.specs.Playing.{EngineGoesOn, EventIsFit, EventIsNext};
ghost use Rattle.fk_agree_engine.specs.Starting.{DeploymentsAreWithinLimits, NewEngineStands};

/// A law: a new engine stands where no history says, and what a deployment that some bytes mean
/// asks is within the limits of messages.
pub fn engine_stands()
    ensures new { NewEngineStands }
    ensures limits { DeploymentsAreWithinLimits }
{}

/// A law: where an engine stands where a history says, at every event that names one of the
/// clients, what the event needs holds, its entry is the one that follows the history, and after it
/// the engine stands where the longer history says.
pub fn event_is_next()
    ensures fit { EventIsFit }
    ensures next { EventIsNext }
    ensures stands { EngineGoesOn }
{}
