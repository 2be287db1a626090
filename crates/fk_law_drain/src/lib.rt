//! Laws of drains: what has to be answered is, in every history that the rules allow. Each law is
//! the clause of a function without a body.
#![tactic(auto)]

mod begun_commands;
mod delivered_outcomes;
mod drained_histories;
mod falling_ranks;
mod published_looks;
mod unhindered_drains;

pub use begun_commands::begun_are_answered_or_kept;
pub use delivered_outcomes::{done_push_is_replied, removed_message_is_replied_or_committed};
pub use drained_histories::drained_is_answered;
pub use falling_ranks::{drain_falls, drains_end};
pub use published_looks::{looked_for_is_published, no_look_is_held};
pub use unhindered_drains::drains_are_unhindered;
