//! Files that were read by hand, evaluated by the grammar.

ghost use Rattle.fk_script.specs.WorkedFiles.{AreJudged, CrowdedIsRead, ServiceIsRead};
ghost use Rattle.fk_script.specs.WorkedUnscheduled.{UnscheduledAreJudged};

/// Three workers of one service, and the beginning of a schedule.
pub fn service_is_read()
    ensures { ServiceIsRead }
{}

/// Spaces, a comment, parts, data in base64, and events of every kind.
pub fn crowded_is_read()
    ensures { CrowdedIsRead }
{}

/// Files with one offending line, each with the first reason of the first one.
pub fn offenders_are_judged()
    ensures { AreJudged }
{}

/// Files that have to stand without a schedule.
pub fn unscheduled_are_judged()
    ensures { UnscheduledAreJudged }
{}
