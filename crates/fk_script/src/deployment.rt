use crate::lists::{Clients, Commands, Turns};
use fk_base::{Config, Text};
use fk_print::Event;

/// A client and its commands.
#[derive(Drop)]
pub struct Block {
    pub name: Text,
    pub commands: Commands,
}

/// A turn of the schedule: one event, or the events of a whole drain.
#[derive(Clone, Copy, Debug, PartialEq, Eq)]
pub enum Turn {
    One(Event),
    Drain,
}

/// What a deployment file says.
#[derive(Drop)]
pub struct Deployment {
    pub config: Config,
    /// A client's number is its place here, from 1.
    pub clients: Clients,
    pub turns: Turns,
    /// Whether there is a schedule block, be it empty.
    pub scheduled: bool,
}
