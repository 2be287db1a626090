//! The transaction that settles a request of a session, which followers and leaders make alike: its
//! conditions, its writes, and what became of it. The rules stand in `specs/`.
#![tactic(auto)]

mod committing;
mod ordering;
mod settling;
mod writing;

pub use committing::commit;
pub use ordering::in_order;
pub use settling::{Verdict, settle, settle_conds};
pub use writing::{applied_as, closes, commit_writes, refuse_writes};
