//! What each service holds after a history: the records of the table and of the user storage, the
//! messages of the lanes, and the watches, each read from the history's lines. Definitions, and
//! worked runs of them.
#![tactic(auto)]

mod counts;
mod worked;

pub use counts::lanes_are_bounded;
pub use worked::{
    create_is_committed, create_is_published, create_is_pushed, create_is_sent, create_is_told,
    create_takes_a_block, eviction_is_kept, eviction_is_told, lanes_are_emptied, loss_is_kept,
    loss_is_told, parts_are_said, refusal_is_kept, refusal_is_told, watch_fires, watch_is_told,
};
