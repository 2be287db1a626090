//! An engine that stands where a history says makes what the rules say: its entry at any event is
//! the one that follows, and after it the engine stands where the longer history says. Each law is
//! the clause of a function without a body.
#![tactic(auto)]

mod drains;
mod events;

pub use drains::{drain_asks_the_rules, drains_are_fit};
pub use events::{engine_stands, event_is_next};
