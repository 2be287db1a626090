ghost use Rattle.fk_law_schedule.specs.OneRun.{ThereIsOneRun};

/// A law: two lawful histories that follow the deployment's schedule are the same.
pub fn there_is_one_run()
    ensures { ThereIsOneRun }
{}
