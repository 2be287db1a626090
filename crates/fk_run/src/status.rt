//! The exit statuses, as the system's own programs number them.

pub const DONE: u8 = 0;

/// The words of the command line are not accepted.
pub const USAGE: u8 = 64;

pub const BAD_INPUT: u8 = 65;

pub const READ_FAULT: u8 = 66;

pub const NO_MEMORY: u8 = 71;

pub const WRITE_FAULT: u8 = 74;
