//! Deployment files: what clients ask for, command by command, and what happens when.
#![tactic(auto)]

mod client_name;
mod command;
mod command_words;
mod copies;
mod cut;
mod deployment;
mod event_words;
mod fault;
mod generator;
mod lists;
mod part_words;
mod piece;
mod place;
mod print;
mod print_command;
mod print_laws;
mod progress;
mod read;
mod values;
mod why;
mod word_laws;
mod words;
mod worked;

pub use command::{Command, PartCommand};
pub use deployment::{Block, Deployment, Turn};
pub use fault::ScriptFault;
pub use generator::generate;
pub use lists::{Clients, Commands, PartCommands, Turns};
pub use print::print_script;
pub use print_laws::{generated_is_meant, printed_reads_back, worked_script};
pub use read::{read_script, read_unscheduled};
pub use why::Why;
pub use word_laws::{data_is_encoded, numbers_are_decimal};
pub use worked::{crowded_is_read, offenders_are_judged, service_is_read, unscheduled_are_judged};
