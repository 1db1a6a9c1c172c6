//! The model of the store: one graph that only grows, open transactions, a cut, and reachability by
//! paths. The definitions stand in `specs/`. Each function without a result is a law of them, and does
//! nothing when it is called.
#![tactic(auto)]

mod examples;
mod faults;
mod from_images;
mod histories;
mod lawful;
mod states;
mod steps;
mod texts;

pub use examples::{
    a_born_object_is_not_freed, a_chain_unlinked_is_collected, a_collection_stops_at_a_refusal,
    a_commit_in_doubt_may_be_done, a_commit_in_doubt_may_be_lost, a_commit_is_not_counted_twice,
    a_conflict_is_not_overlooked, a_dirty_copy_outlives_an_abort,
    a_fault_in_a_reopening_keeps_the_doubt, a_lock_conflict_is_busy, a_locked_page_is_swept,
    a_lost_object_is_not_left, a_moved_pointer_is_seen, a_number_is_put, a_page_fills,
    a_reached_object_is_not_freed, a_reopening_drops_the_cut, a_sweep_in_doubt_may_be_done,
    a_transaction_opens_once, an_aborted_name_is_given_again, another_cut_is_told,
    busy_names_the_holder, nothing_is_collected, phases_come_in_order, refusals_come_in_order,
    refusals_keep_their_order, too_many_do_not_begin, what_is_born_in_a_cut_outlives_it,
    what_is_unlinked_after_its_copy_outlives_the_cut,
};
pub use faults::{faults_ascend_over_parts, faults_ascend_within, one_fault_ascends};
pub use from_images::{
    a_fresh_store_opens_to_the_fresh_world, a_small_store_opens,
    objects_in_use_are_those_of_the_slots, opened_world_has_what_its_images_have,
    opened_world_is_lawful, opened_world_shows_its_images, worlds_show_images_of_a_store,
};
pub use histories::{
    a_part_starts, a_run_in_two_parts, histories_in_two_parts, is_refused, one_more_event,
    present_marks_are_of_no_other_cut,
};
pub use lawful::{
    a_commit_reaches_own_objects_alone, a_new_name_is_new,
    an_ended_cut_has_freed_all_that_was_lost, each_event_keeps_the_world_lawful,
    each_name_is_there_once, fresh_worlds_are_lawful, histories_keep_the_world_lawful,
    names_count_up, names_of_a_world_are_names, objects_have_their_fields,
    the_cut_that_is_there_is_the_last, what_a_transaction_holds_is_reached_or_its_own,
    what_is_freed_is_out_of_reach, what_is_out_of_reach_stays_so,
    what_was_out_of_reach_as_a_cut_opened_is_freed_as_it_ends,
};
pub use states::{
    a_commit_in_doubt_is_done_or_not, a_further_fault_leaves_the_states, a_reopening_finds_a_state,
    a_sweep_in_doubt_is_done_or_not, what_is_committed_is_a_state,
};
pub use steps::{
    broken_comes_first, commits_do_not_fall, committed_names_stay, freed_names_stay,
    only_commits_and_reopenings_change_the_graph, refusals_leave_the_world,
};
pub use texts::{
    no_two_calls_have_one_text, no_two_refusals_have_one_text, no_two_replies_have_one_text,
};
