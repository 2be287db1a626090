//! Histories read back from their text.
#![tactic(auto)]

mod act;
mod back;
mod client_op;
mod data;
mod ending;
mod event;
mod follower_op;
mod function_op;
mod leader_op;
mod line;
mod notifier_op;
mod op;
mod piece;
mod reading;
mod reply;
mod unread;
mod words;

pub use back::{one_history, read_back};
