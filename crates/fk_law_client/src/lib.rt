//! Laws of inboxes and clients that hold in every history that the rules allow. Each law is the
//! clause of a function without a body.
#![tactic(auto)]

mod inboxes;
mod kept_commands;
mod public_lines;
mod refusal_numbers;
mod replies;
mod sent_commands;
mod shown_numbers;
mod views;

pub use inboxes::inbox_messages_are_true;
pub use kept_commands::kept_commands_have_their_source;
pub use public_lines::every_line_has_its_operation;
pub use refusal_numbers::{mark_was_pushed, refusal_stays_at_its_number};
pub use replies::{replies_are_in_order, unfit_commands_are_refused};
pub use sent_commands::sent_commands_are_tracked;
pub use shown_numbers::seen_is_published;
pub use views::{deployments_write_by_writes, view_never_falls};
