//! The top call of the program that plays a deployment file and prints its history.
#![tactic(auto)]

mod playing;
mod status;
mod top;
mod write;

pub use playing::{Played, new_world, play};
pub use status::{BAD_INPUT, DONE, NO_MEMORY, READ_FAULT, USAGE, WRITE_FAULT};
pub use top::fk_run;
pub use write::{refuse, refuse_line, write_text};
