//! Memory for messages, in blocks of 256 bytes: what is put in is kept under a ticket, over as many blocks as
//! it needs, until the ticket is given back.
#![tactic(auto)]

mod block;
mod chain;
mod laws;
mod region;
mod ticket;

pub use laws::{others_stay, same_ticket_is_equal, stored_is_found};
pub use region::Region;
pub use ticket::Ticket;
