//! What a history means: the rules that say which entry may follow, and what a history promises.
//! Definitions only; they read the history and know no service.
#![tactic(auto)]

mod scenarios;

pub use scenarios::{
    close_removes_ephemeral_nodes, crash_before_commit_is_played, create_is_played,
    create_then_get_is_played, eviction_is_played, failures_are_answered,
    late_leader_changes_nothing, lock_that_passed_on_is_lost, multi_is_played, no_path_is_refused,
    orphan_is_refused, own_watch_is_told_first, read_is_held_by_a_watch,
    refusal_waits_for_the_mark, registration_passed_by_a_sweep, root_is_refused,
};
