//! Worked runs: each is what the rules give at its events, follows its schedule, and ends with all
//! answered. Definitions and their evaluation alone; nothing stands on this crate.
#![tactic(auto)]

mod command_limits;
mod known_runs;
mod worked_runs;

pub use command_limits::limits_of_commands;
pub use known_runs::{
    close_of_several, crash_before_commit, create_then_get, eviction, failures, late_leader,
    lock_passed_on, multi, own_watch, read_held, refusal_ahead, registration_passed,
};
pub use worked_runs::{
    after_the_end, at_the_limits, behind_eviction, dropped_push, failing_client, late_replies,
    multi_behind_eviction, passed_on, pings_and_pongs, refusal_numbers, seen_unanswered,
    two_followers, two_watches, watch_numbers, whole_schedule,
};
