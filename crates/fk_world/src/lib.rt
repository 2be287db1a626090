//! The world: an engine that plays a deployment, whose history is always one that the rules allow.
#![tactic(auto)]

mod draining;
mod making;
mod world;

pub use world::World;
