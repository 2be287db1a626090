//! Laws of schedules: a deployment has one run, and whether a history follows a schedule can be
//! computed. Each law is the clause of a function without a body.
#![tactic(auto)]

mod computed_schedules;
mod one_run;

pub use computed_schedules::schedule_is_computed;
pub use one_run::there_is_one_run;
