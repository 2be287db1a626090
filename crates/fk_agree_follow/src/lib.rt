//! Followers do what the rules say: where the services stand as a history says, a follower makes
//! the operation that the rules name, goes on as they say, and leaves the services as the longer
//! history says. Each law is the clause of a function without a body.
#![tactic(auto)]

mod followers;

pub use followers::{
    follower_goes_on, follower_is_fit, follower_is_written, follower_makes_its_operation,
    follower_starts,
};
