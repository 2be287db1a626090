//! The user storage: what clients read without a lock. A record for each path, with its node and the
//! transaction that it stands at, and a mark with the epoch of the last publication.
#![tactic(auto)]

mod answer;
mod id_set;
mod own;
mod record;
mod record_map;
mod records;
mod store_laws;
mod user_store;

pub use answer::{Publish, PutRecord, UserLook, UserRead};
pub use id_set::IdSet;
pub use own::own_edits;
pub use store_laws::{done_once, stamps_never_fall};
pub use user_store::UserStore;
