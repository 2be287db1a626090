use crate::lists::PartCommands;
use fk_base::{Bytes, Text};

/// A part of a multi as its line has it: a create that isn't sequential, a set or a delete.
#[derive(Drop)]
pub enum PartCommand {
    Create {
        path: Text,
        bytes: Bytes,
        eph: bool,
    },
    Set {
        path: Text,
        bytes: Bytes,
        version: i32,
    },
    Delete {
        path: Text,
        version: i32,
    },
}

/// A command as its line has it. Whether its path is a path is found when the client comes to it.
/// A command that doesn't `wait` may be followed by the next before it is answered.
#[derive(Drop)]
pub enum Command {
    Create {
        path: Text,
        bytes: Bytes,
        /// Whether the name gets a number at its end.
        seq: bool,
        /// Whether the node goes with its session.
        eph: bool,
        wait: bool,
    },
    Set {
        path: Text,
        bytes: Bytes,
        /// The version that is expected; -1 fits any.
        version: i32,
        wait: bool,
    },
    Delete {
        path: Text,
        version: i32,
        wait: bool,
    },
    Get {
        path: Text,
        watch: bool,
    },
    Stat {
        path: Text,
        watch: bool,
    },
    Ls {
        path: Text,
        watch: bool,
    },
    Close,
    Multi {
        parts: PartCommands,
        wait: bool,
    },
}
