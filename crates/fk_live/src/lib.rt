//! The clients on threads: which event each worker makes next, and what they make of one world.
//! What happens is said of a desk, whose calls a lock lets in one by one.
#![tactic(auto)]

mod choosing;
mod cloud;
mod desk;
mod gate;
mod pick;
mod playing;
mod starting;
mod top;
mod worked;
mod worker;
mod working;

pub use cloud::Cloud;
pub use desk::Desk;
pub use gate::{Gate, NoGate};
pub use pick::Pick;
pub use top::fk_live;
pub use worked::new_desk_offers_turns;
pub use working::live;
