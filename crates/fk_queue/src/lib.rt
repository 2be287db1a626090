//! The post: the FIFO queues of the service, which it calls lanes. There is one for the leader, one for
//! watches, and for each session one for its requests and an inbox. A lane numbers its messages from 1
//! in the order of their pushes, shows only its head, and removes only its head. The bytes of all messages
//! stand in one region.
#![tactic(auto)]

mod answer;
mod lane;
mod laws;
mod letter;
mod post;
mod queue;
mod slip;

pub use answer::{Ack, Posted};
pub use lane::Lane;
pub use laws::{
    ack_frees_blocks, ack_takes_one, no_blocks_where_none_waits, none_waits_where_empty,
    others_stay, push_adds_blocks, push_adds_one, same_lane_is_equal, sessions_stay,
};
pub use post::Post;
