//! The leader: a function that carries one push, one operation at a time. It commits the push where
//! its follower has not, sweeps the watches, puts the record of each edited path, publishes,
//! notifies the fired watches, replies and finishes. The rules stand in `specs/`.
#![tactic(auto)]

mod committing;
mod finishing;
mod indexed;
mod leader;
mod printing;
mod publishing;
mod state;
mod stepping;
mod sweeping;
mod telling;

pub use leader::Leader;
