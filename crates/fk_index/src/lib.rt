//! A conditional table whose calls find their records by an index: an ordered map of the records by
//! path, the paths of each owner in path order, and the records of sessions by their numbers.
#![tactic(auto)]

mod drafts;
mod index_table;
mod installing;
mod owners;
mod preparing;
mod sessions;
mod slots;
mod touching;

pub use index_table::IndexTable;
