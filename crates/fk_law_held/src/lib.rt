//! Laws of the watches that clients hold, in every history that the rules allow. Each law is the
//! clause of a function without a body.
#![tactic(auto)]

mod announced_watches;
mod fired_lines;
mod held_lines;
mod held_watches;
mod notices;

pub use announced_watches::{
    inbox_tells_of_announced_watches, looks_pass_no_held_watch, told_watch_is_of_its_client,
};
pub use fired_lines::{fired_by_lines_has_fired, no_read_passes_a_held_watch};
pub use held_lines::held_by_lines_is_held;
pub use held_watches::{
    closed_clients_hold_nothing, held_watches_are_accounted_for, held_watches_differ,
    set_watches_are_held, waiting_read_registers,
};
pub use notices::{inbox_is_in_order, notifications_fit_the_watches};
