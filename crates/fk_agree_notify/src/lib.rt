//! Watch functions and heartbeats do what the rules say: where the services stand as a history
//! says, each makes the operation that the rules name, goes on as they say, and leaves the services
//! as the longer history says. Each law is the clause of a function without a body.
#![tactic(auto)]

mod beats;
mod tellers;

pub use beats::{
    beat_goes_on, beat_is_fit, beat_is_written, beat_makes_its_operation, beat_starts,
};
pub use tellers::{
    teller_goes_on, teller_is_fit, teller_is_written, teller_makes_its_operation, teller_starts,
};
