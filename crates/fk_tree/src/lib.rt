//! The tree of ZooKeeper: small versioned nodes under paths, the requests that change it and what
//! each of them does. The rules stand in `specs/`; the code of this crate meets them.
#![tactic(auto)]

mod applied;
mod change;
mod checking;
mod child_names;
mod codes;
mod edit;
mod effect_list;
mod fault;
mod filling;
mod lists;
mod node;
mod node_edit;
mod owners;
mod parts;
mod replies;
mod reply;
mod request;
mod rows;
mod sequence;
mod slots;
mod touch_list;
mod touch_set;
mod tree;
mod writes;

pub use applied::{Applied, Made};
pub use change::{Change, Kind, Touch};
pub use edit::{Edit, What};
pub use effect_list::effects;
pub use fault::CheckFault;
pub use lists::{Edits, Mades, Parts, Replies, Touches};
pub use node::{Node, Stat, copy_node};
pub use node_edit::{edit_node, edit_sorted};
pub use reply::{Answer, PartReply, Reply};
pub use request::{Part, Query, Request};
pub use rows::Rows;
pub use sequence::final_path;
pub use touch_list::touched;
pub use tree::Tree;
