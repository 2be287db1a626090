//! The client of a session: a machine of one operation per step. It sends its writes, reads the
//! storage, waits until what it prints may be seen, and prints. The rules stand in `specs/`.
#![tactic(auto)]

mod beginning;
mod client;
mod knowing;
mod lists;
mod looking;
mod pinging;
mod printing;
mod reading;
mod registering;
mod replying;
mod sent_list;
mod stepping;
mod taking;
mod unanswered;
mod want;

pub use client::Client;
pub use knowing::{comes_to_the_same, makes_the_same_op};
pub use reading::Reading;
pub use taking::read_head;
pub use unanswered::{Outcome, Unanswered};
