//! What services hold says the same as the rules: laws that tie what `fk_stand` says of the
//! services after a history to what the rules of a history read. Each law is the clause of a
//! function without a body.
#![tactic(auto)]

mod lanes;
mod pushes;
mod services;
mod storage;
mod tables;
mod watches;

pub use lanes::{
    heads_are_the_rules, heads_are_their_messages, letters_are_pushed_and_popped,
    post_starts_and_stays,
};
pub use pushes::{message_tells_its_push, push_has_its_message, push_is_its_commit};
pub use services::services_start_and_stay;
pub use storage::{put_is_written, storage_starts_and_stays};
pub use tables::{
    commit_is_written, finish_is_written, grant_is_written, ping_is_written, refusal_is_written,
    table_starts_and_stays,
};
pub use watches::{
    fired_are_the_rules, registration_is_written, sweep_is_written, watches_start_and_stay,
};
