//! The messages of the queues and their texts, canonical JSON: each message has one text in each
//! version, and no text is that of two messages. The texts stand in `specs/`.
#![tactic(auto)]

mod fault;
mod fired;
mod mades;
mod message;
mod note;
mod object;
mod op;
mod pushed;
mod reader;
mod reading;
mod sent;
mod tell;
mod tell_reading;
mod tell_writing;
mod version;
mod watches;
mod writing;

pub use fault::WireFault;
pub use fired::{Fired, FiredList};
pub use message::{Note, Pushed, Sent, Tell};
pub use note::{decode_note, encode_note, note_of, one_note};
pub use pushed::{decode_pushed, encode_pushed, one_pushed, pushed_of};
pub use reader::Reader;
pub use sent::{decode_send, encode_send, one_sent, sent_of};
pub use tell::{decode_tell, encode_tell, one_tell, tell_of};
pub use version::Version;
