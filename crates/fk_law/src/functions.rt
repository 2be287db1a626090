ghost use Rattle.fk_law.specs.Functions.{StartedAreNumbered, InFlightAreNumbered, TaskNeverChanges, FunctionDoesItsTask, TellerWorksAtOrBelowTheHead};

/// A law: a function that was started has a number from 1 to the count of starts.
pub fn started_are_numbered()
    ensures { StartedAreNumbered }
{}

/// A law: a function in flight has a number from 1 to the count of starts.
pub fn in_flight_are_numbered()
    ensures { InFlightAreNumbered }
{}

/// A law: what a function was started for never changes.
pub fn task_never_changes()
    ensures { TaskNeverChanges }
{}

/// A law: a function in flight works on what it was started for.
pub fn function_does_its_task()
    ensures { FunctionDoesItsTask }
{}

/// A law: a watch function was started for a note that is at most one beyond the removed ones.
pub fn teller_works_at_or_below_the_head()
    ensures { TellerWorksAtOrBelowTheHead }
{}
