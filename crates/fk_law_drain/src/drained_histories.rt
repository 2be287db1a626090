ghost use Rattle.fk_law_drain.specs.Drained.{DrainedDeploymentIsAnswered, DrainedIsAnswered, ScheduledIsAnswered};

/// A law: where a drain does nothing next, each command has its line, every lane is empty, no ping
/// is owed and no function is in flight. So it is after the whole schedule of a deployment.
pub fn drained_is_answered()
    ensures plan { DrainedIsAnswered }
    ensures deployment { DrainedDeploymentIsAnswered }
    ensures schedule { ScheduledIsAnswered }
{}
