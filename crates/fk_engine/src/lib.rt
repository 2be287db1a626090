//! The engine: the past, the clock, the functions in flight, the clients and the four services
//! under one roof. Each event makes one operation on what is there. What that is, and what
//! everything means after it, stands in `specs/`, in the words of the services and of the machines.
#![tactic(auto)]

mod delivering;
mod draining;
mod ending;
mod engine;
mod functions;
mod heads;
mod in_flight;
mod machine;
mod parts;
mod playing;
mod services;
mod stepping;
mod times;
mod turning;

pub use engine::Engine;
pub use functions::Functions;
pub use machine::Machine;
pub use services::Services;
pub use times::Times;
