//! The table of watches: which are set, which have fired and aren't told, and the last sweep of
//! each path; and two functions: one tells clients which of their watches fired, one pings their
//! sessions.
//! What these mean and what each call does stands in `specs/`.
#![tactic(auto)]

mod answer;
mod beat;
mod firings;
mod index;
mod laws;
mod listing;
mod set_watches;
mod sweeps;
mod table;
mod teller;
mod watch;

pub use answer::{Register, Sweep, Told};
pub use beat::Beat;
pub use laws::sweep_lists_one_way;
pub use table::WatchTable;
pub use teller::Teller;
