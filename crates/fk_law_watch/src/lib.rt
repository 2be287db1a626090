//! Laws of watches that hold in every history that the rules allow. Each law is the clause of a
//! function without a body.
#![tactic(auto)]

mod announcements;
mod counts;
mod epochs_of_watches;
mod last_sweeps;
mod number_of_registration;
mod push_notes;
mod registrations;
mod watch_laws;

pub use announcements::{
    announced_has_fired, announced_in_number_order, notes_first_stand_in_order,
    removed_note_is_told, told_push_is_announced,
};
pub use counts::counts_are_bounded;
pub use epochs_of_watches::{
    epoch_has_fired, leader_holds_a_complete_epoch, untold_fired_watch_is_in_the_epoch,
};
pub use last_sweeps::{
    last_sweep_of_a_path, sweeps_rise, swept_of_is_the_greatest, touches_never_change,
};
pub use number_of_registration::{
    deployments_read_by_reads, fires_beyond_its_first, watches_are_set_up_to_the_mark,
};
pub use push_notes::{
    fired_at_its_push, fired_is_listed_until_told, fired_list_in_hand,
    fired_push_is_noted_before_done, note_tells_what_its_push_fired,
};
pub use registrations::watches_are_registered;
pub use watch_laws::{
    fired_watch_fired_at_its_first_change, fires_once, firing_never_changes,
    set_or_fired_were_given, set_watch_saw_no_change, set_watches_differ, watch_is_set_or_fired,
};
