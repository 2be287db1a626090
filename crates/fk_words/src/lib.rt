//! The words of the command line, and what they ask for.
#![tactic(auto)]

mod words;
mod workers;

pub use words::{Asked, Load, read_words};
pub use workers::read_workers;
