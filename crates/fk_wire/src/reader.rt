//! A message that is known to be one is read into memory that is kept.

use json::Scratch;
use std::alloc::Global;

/// The text of the message that was read last, and the memory that reading it takes. Both are kept
/// from message to message.
#[derive(Drop)]
pub struct Reader {
    pub text: Vec<u8>,
    pub(crate) scratch: Scratch,
}

impl Reader {
    /// A reader that has read nothing.
    pub fn new(alloc: Global) -> Reader {
        Reader {
            text: Vec::new(alloc),
            scratch: Scratch::new(alloc),
        }
    }
}
