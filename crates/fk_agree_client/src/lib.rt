//! A client that stands where a history says makes what the rules say: laws that tie the machine of
//! a client, on services that stand as a history says, to the rules of clients. Each law is the
//! clause of a function without a body.
#![tactic(auto)]

mod clients;
mod inboxes;
mod serving;

pub use clients::{client_goes_on, client_makes_its_op, clients_stand};
pub use inboxes::inbox_says_its_messages;
pub use serving::{client_is_fit, client_is_written};
