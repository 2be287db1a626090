//! Every history that the rules allow is lawful. Each law is the clause of a function without a
//! body.
#![tactic(auto)]

mod lawful_histories;

pub use lawful_histories::every_history_is_lawful;
