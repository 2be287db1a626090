//! Leaders do what the rules say: where the services stand as a history says, each makes the
//! operation that the rules name, goes on as they say, and leaves the services as the longer
//! history says. Each law is the clause of a function without a body.
#![tactic(auto)]

mod leaders;

pub use leaders::{
    leader_goes_on, leader_is_fit, leader_is_written, leader_makes_its_operation,
    leader_prints_its_lines, leader_starts,
};
