//! Histories that do not follow their schedule.

ghost use Rattle.fk_refused.specs.Schedules.{ClientBeforeAFunction, DrainAtTheLockTime, DrainThatGoesOn, DrainThatStopsEarly, DrainWithoutItsClock, FunctionLeftInFlight, TurnLeftOut, TurnsInAnotherOrder};

/// A drain does not let the locks run out.
#[tactic(auto, using(crate::proofs::Schedules::drain_without_its_clock))]
pub fn drain_without_its_clock()
    ensures { DrainWithoutItsClock }
{}

/// A drain lets exactly the lock time pass.
#[tactic(auto, using(crate::proofs::Schedules::drain_at_the_lock_time))]
pub fn drain_at_the_lock_time()
    ensures { DrainAtTheLockTime }
{}

/// A drain stops while there is something to do.
#[tactic(auto, using(crate::proofs::Schedules::drain_that_stops_early))]
pub fn drain_that_stops_early()
    ensures { DrainThatStopsEarly }
{}

/// A drain goes on while there is nothing to do.
#[tactic(auto, using(crate::proofs::Schedules::drain_that_goes_on))]
pub fn drain_that_goes_on()
    ensures { DrainThatGoesOn }
{}

/// A client has its turn in a drain while a function is in flight.
#[tactic(auto, using(crate::proofs::Schedules::client_before_a_function))]
pub fn client_before_a_function()
    ensures { ClientBeforeAFunction }
{}

/// A turn of the deployment is left out.
#[tactic(auto, using(crate::proofs::Schedules::turn_left_out))]
pub fn turn_left_out()
    ensures { TurnLeftOut }
{}

/// Two turns of the deployment come in another order.
#[tactic(auto, using(crate::proofs::Schedules::turns_in_another_order))]
pub fn turns_in_another_order()
    ensures { TurnsInAnotherOrder }
{}

/// A drain begins without ending the function in flight.
#[tactic(auto, using(crate::proofs::Schedules::function_left_in_flight))]
pub fn function_left_in_flight()
    ensures { FunctionLeftInFlight }
{}
