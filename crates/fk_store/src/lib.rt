//! The conditional table: a record for each path with its node and its timed lock, a record for each
//! session, and a number done. The trait `Table` says what each call does by what a table means,
//! and code above is generic over it; `ListTable` is the plain table over lists.
#![tactic(auto)]

mod answer;
mod cond;
mod draft;
mod list_table;
mod lock;
mod node_record;
mod outcome;
mod owning;
mod rows;
mod session_record;
mod sessions;
mod table;
mod write;

pub use answer::{Owned, Seen, Taken, Transact};
pub use cond::{Cond, Found};
pub use list_table::ListTable;
pub use lock::{Lock, UNLOCKED, may_grant, still};
pub use node_record::NodeRecord;
pub use outcome::Outcome;
pub use session_record::SessionRecord;
pub use sessions::{done_after, new_sessions, write_session};
pub use table::Table;
pub use write::Write;
