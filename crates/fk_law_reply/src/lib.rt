//! Laws of what clients are answered, in every history that the rules allow. Each law is the clause
//! of a function without a body.
#![tactic(auto)]

mod closed_clients;
mod command_verbs;
mod evictions;
mod made_reads;
mod refused_requests;
mod replies;
mod sent_numbers;

pub use closed_clients::closed_clients_are_right;
pub use command_verbs::deployments_have_fitting_verbs;
pub use evictions::evictions_are_of_late_heartbeats;
pub use made_reads::reads_show_the_tree;
pub use refused_requests::refused_requests_hold_at_their_numbers;
pub use replies::{lines_are_explained, refusals_have_their_cause, replies_fit};
pub use sent_numbers::{commands_are_begun_in_order, kept_commands_are_entered};
