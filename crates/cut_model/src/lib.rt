//! The cut of page copies beside the world of the model: which cuts are sound, which copies are fit,
//! and what the marks of a sound cut leave. The definitions stand in `specs/`. Each function without
//! a result is a law of them, and does nothing.
#![tactic(auto)]

mod collection;
mod copies;
mod examples;
mod frames;
mod standing;

pub use collection::{
    a_closed_cut_is_safe_and_complete, a_sweep_leaves_the_rest_doomed,
    doomed_slots_are_those_of_doomed_names, doomed_slots_may_be_freed,
    one_name_stands_at_each_place, what_is_reached_is_marked, what_was_lost_is_unmarked,
};
pub use copies::{
    a_commit_keeps_the_cut_sound, a_cut_opens_sound, a_fit_copy_keeps_the_cut_sound,
    a_fit_copy_stays_fit, a_frame_is_a_fit_copy, each_event_keeps_the_cut_sound,
    each_event_keeps_the_opening,
};
pub use examples::{
    a_collection_runs_through, a_copy_without_its_before_image_is_unsound,
    a_cut_without_an_after_image_is_unsound, a_dirty_copy_marks_what_was_committed,
    a_moved_pointer_marks_its_target,
};
pub use frames::{
    a_commit_leaves_other_pages, a_commit_leaves_other_views, a_new_object_leaves_other_slots,
    a_new_object_takes_its_slot, a_sweep_frees_its_slots, a_sweep_leaves_other_slots,
    a_write_changes_one_slot, a_write_leaves_other_pages, views_are_in_order,
};
pub use standing::{
    a_cut_that_runs_through_ends, a_fresh_store_stands, each_event_leaves_what_stands,
    histories_leave_what_stands,
};
