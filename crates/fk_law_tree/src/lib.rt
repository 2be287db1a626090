//! Laws of the tree, path by path: what holds of checks, edits, locks and trees whatever the history.
//! Each law is the clause of a function without a body.
#![tactic(auto)]

mod disjoint_edits;
mod fitting_requests;
mod locked_paths;
mod node_owners;
mod path_editors;
mod read_paths;
mod rising_lists;
mod touched_paths;
mod whole_trees;

pub use disjoint_edits::{apart_commute, fits_after_others};
pub use fitting_requests::{fits_what_is_shown, one_fits, same_reply};
pub use locked_paths::{
    edits_are_locked, fits_by_its_edits, gone_is_owned, locks_read_what_is_locked,
    reads_are_edited, reads_are_locked,
};
pub use node_owners::{close_leaves_none, edits_keep_foreign_owners, owned_are_the_owners};
pub use path_editors::{
    only_editors_count, only_its_edits_count, owned_was_edited, unedited_stays,
};
pub use read_paths::{ask_reads, check_reads, fill_reads};
pub use rising_lists::{in_path_order_rises, rising_lists_are_their_members};
pub use touched_paths::touch_paths;
pub use whole_trees::{
    apply_by_path, apply_keeps_well_formed, locked_is_enough, owners_have_no_child,
    unlocked_is_missing, views_are_trees,
};
