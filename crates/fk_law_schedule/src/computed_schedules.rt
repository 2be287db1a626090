ghost use Rattle.fk_law_schedule.specs.Computed.{ScheduleIsComputed};

/// A law: whether a history follows the deployment's schedule is what is computed of its events.
pub fn schedule_is_computed()
    ensures { ScheduleIsComputed }
{}
