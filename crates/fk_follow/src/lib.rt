//! The follower: a function that carries one request of a session, one operation at a time. It
//! locks the request's paths, checks it on the records that the locks gave, pushes it to the leader
//! and commits it, or refuses it. The rules stand in `specs/`.
#![tactic(auto)]

mod asking;
mod deciding;
mod follower;
mod granted;
mod locking;
mod losing;
mod own_nodes;
mod pushing;
mod reading;
mod sketching;
mod state;
mod stepping;
mod taking;
mod telling;
mod transacting;
mod worked;

pub use follower::Follower;
pub use worked::{create_runs, fault_ends, orphan_is_refused};
