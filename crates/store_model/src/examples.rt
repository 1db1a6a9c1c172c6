//! Worked scripts, as histories that are legal, and spoiled ones that are not.
ghost use Rattle.std.specs.Prelude.{◌≡◌, [], ◌∷◌, codes};
ghost use Rattle.object_graph.specs.declared.calls.Call.TheVariants.{OpenCut, DropCut};
ghost use Rattle.store_model.specs.Worlds.{fresh_world};
ghost use Rattle.store_model.specs.Histories.{IsLegal, IsScriptRun, Follows, collection};
ghost use Rattle.store_model.specs.Texts.{history_text};
ghost use Rattle.store_model.specs.Examples as worked;

/// A number that was put is read, and stands after the commit.
pub fn a_number_is_put()
    ensures legal { IsLegal (fresh_world 16) worked.a_number_is_put }
    ensures text { history_text worked.a_number_is_put ≡ codes "ok\nnum 0\nok\nnum 7\ncommit 1\nok\nnum 7\n" }
{}

/// A transaction that is open isn't begun again.
pub fn a_transaction_opens_once()
    ensures legal { IsLegal (fresh_world 16) worked.a_transaction_opens_once }
    ensures text { history_text worked.a_transaction_opens_once ≡ codes "not open\nok\nalready open\nstranger\nnot open\ncommit 1\n" }
{}

/// So many transactions are open at once, and no more.
pub fn too_many_do_not_begin()
    ensures { IsLegal (fresh_world 16) worked.too_many_begin }
{}

/// A page that another transaction read can't be written until that one ends.
pub fn a_lock_conflict_is_busy()
    ensures legal { IsLegal (fresh_world 2) worked.a_lock_conflict_is_busy }
    ensures text { history_text worked.a_lock_conflict_is_busy ≡ codes "ok\nok\nnum 0\nnum 0\nbusy 1\nok\nok\ncommit 1\n" }
{}

/// A page holds twenty objects. A refusal takes no lock.
pub fn a_page_fills()
    ensures legal { IsLegal (fresh_world 2) worked.a_page_fills }
    ensures text { history_text worked.a_page_fills
        ≡ codes "ok\nnew 1.0.1\nnew 1.1.1\nnew 1.2.1\nnew 1.3.1\nnew 1.4.1\nnew 1.5.1\nnew 1.6.1\nnew 1.7.1\nnew 1.8.1\nnew 1.9.1\nnew 1.10.1\nnew 1.11.1\nnew 1.12.1\nnew 1.13.1\nnew 1.14.1\nnew 1.15.1\nnew 1.16.1\nnew 1.17.1\nnew 1.18.1\nnew 1.19.1\npage full 1\ncommit 1\nok\npage full 1\nok\npage full 1\n" }
{}

/// Each refusal has its cause.
pub fn refusals_come_in_order()
    ensures legal { IsLegal (fresh_world 2) worked.refusals_come_in_order }
    ensures text { history_text worked.refusals_come_in_order
        ≡ codes "ok\nnew 1.0.1\ncommit 1\nok\nstranger\nbad field\nno page\nnot open\n" }
{}

/// A chain that was unlinked is freed, and its slots are used again.
pub fn a_chain_unlinked_is_collected()
    ensures legal { IsLegal (fresh_world 2) worked.a_chain_unlinked_is_collected }
    ensures text { history_text worked.a_chain_unlinked_is_collected
        ≡ codes "ok\nnew 1.0.1\nnew 1.1.1\nnew 1.2.1\nok\nok\nok\ncommit 1\nok\nok\ncommit 2\ncut 1\nok\nok\nok\nok\nfreed none\nfreed 0 1 2\nok\nok\nnew 1.0.2\n" }
{}

/// A pointer that moves from a page that isn't copied to one that is keeps its target.
pub fn a_moved_pointer_is_seen()
    ensures legal { IsLegal (fresh_world 3) worked.a_moved_pointer_is_seen }
    ensures text { history_text worked.a_moved_pointer_is_seen
        ≡ codes "ok\nnew 1.0.1\nnew 2.0.1\nok\nok\ncommit 1\ncut 1\nok\nok\nref 1.0.1\nref 2.0.1\nok\nok\ncommit 2\nok\nok\nok\nok\nfreed none\nfreed none\nfreed none\nok\n" }
{}

/// A page is copied while it has writes that are aborted later.
pub fn a_dirty_copy_outlives_an_abort()
    ensures legal { IsLegal (fresh_world 2) worked.a_dirty_copy_outlives_an_abort }
    ensures text { history_text worked.a_dirty_copy_outlives_an_abort
        ≡ codes "ok\nnew 1.0.1\nok\ncommit 1\ncut 1\nok\nok\nok\nok\nok\nok\nok\nfreed none\nfreed none\nok\n" }
{}

/// What is made and unlinked while a cut is open is freed by the next one.
pub fn what_is_born_in_a_cut_outlives_it()
    ensures legal { IsLegal (fresh_world 2) worked.what_is_born_in_a_cut_outlives_it }
    ensures text { history_text worked.what_is_born_in_a_cut_outlives_it
        ≡ codes "cut 1\nok\nnew 1.0.1\nok\ncommit 1\nok\nok\ncommit 2\nok\nok\nok\nok\nfreed none\nfreed none\nok\ncut 2\nok\nok\nok\nok\nfreed none\nfreed 0\nok\n" }
{}

/// A page is swept under a transaction that wrote it.
pub fn a_locked_page_is_swept()
    ensures legal { IsLegal (fresh_world 2) worked.a_locked_page_is_swept }
    ensures text { history_text worked.a_locked_page_is_swept
        ≡ codes "ok\nnew 1.0.1\ncommit 1\ncut 1\nok\nok\nok\nok\nok\nnew 1.1.1\nfreed none\nfreed 0\nok\nok\nok\nnew 1.0.2\n" }
{}

/// The calls on a cut are answered in its phases alone.
pub fn phases_come_in_order()
    ensures legal { IsLegal (fresh_world 4) worked.phases_come_in_order }
    ensures text { history_text worked.phases_come_in_order
        ≡ codes "no cut\ncut 1\ncut there 1\nok\nalready copied 0\nok\nok\nuncopied 3\nok\nok\nwrong phase closed\nok\nunswept 0\nfreed none\nalready swept 0\nok\nno cut\n" }
{}

/// A commit that met a disk fault may be undone.
pub fn a_commit_in_doubt_may_be_lost()
    ensures legal { IsLegal (fresh_world 2) worked.a_commit_in_doubt_may_be_lost }
    ensures text { history_text worked.a_commit_in_doubt_may_be_lost ≡ codes "ok\nok\ndisk fault\nbroken 1\nopen 0\nok\nnum 0\n" }
{}

/// A commit that met a disk fault may be done.
pub fn a_commit_in_doubt_may_be_done()
    ensures legal { IsLegal (fresh_world 2) worked.a_commit_in_doubt_may_be_done }
    ensures text { history_text worked.a_commit_in_doubt_may_be_done ≡ codes "ok\nok\ndisk fault\nbroken 1\nopen 1\nok\nnum 5\n" }
{}

/// A line that collects makes the calls of a collection.
pub fn nothing_is_collected()
    ensures legal { IsLegal (fresh_world 2) worked.nothing_is_collected }
    ensures follows { Follows (collection 2 2 ∷ []) worked.nothing_is_collected }
    ensures run { IsScriptRun (fresh_world 2) worked.nothing_is_collected }
    ensures text { history_text worked.nothing_is_collected ≡ codes "cut 1\nok\nok\nok\nok\nfreed none\nfreed none\nok\n" }
{}

/// Such a line stops after its first call that is refused.
pub fn a_collection_stops_at_a_refusal()
    ensures legal { IsLegal (fresh_world 2) worked.a_collection_stops_at_a_refusal }
    ensures follows { Follows ((OpenCut ∷ []) ∷ collection 2 1 ∷ (DropCut ∷ []) ∷ []) worked.a_collection_stops_at_a_refusal }
    ensures text { history_text worked.a_collection_stops_at_a_refusal ≡ codes "cut 1\ncut there 1\nok\n" }
{}

/// A sweep that met a disk fault may be done: its slots are used again.
pub fn a_sweep_in_doubt_may_be_done()
    ensures legal { IsLegal (fresh_world 2) worked.a_sweep_in_doubt_may_be_done }
    ensures text { history_text worked.a_sweep_in_doubt_may_be_done
        ≡ codes "ok\nnew 1.0.1\nnew 1.1.1\nnew 1.2.1\nok\nok\nok\ncommit 1\nok\nok\ncommit 2\ncut 1\nok\nok\nok\nok\nfreed none\ndisk fault\nbroken 1\nopen 2\nok\nnew 1.0.2\n" }
{}

/// What is unlinked after its referrer was copied is freed by the next cut.
pub fn what_is_unlinked_after_its_copy_outlives_the_cut()
    ensures legal { IsLegal (fresh_world 2) worked.what_is_unlinked_after_its_copy_outlives_the_cut }
    ensures text { history_text worked.what_is_unlinked_after_its_copy_outlives_the_cut
        ≡ codes "ok\nnew 1.0.1\nok\ncommit 1\ncut 1\nok\nok\nok\ncommit 2\nok\nok\nok\nfreed none\nfreed none\nok\ncut 2\nok\nok\nok\nok\nfreed none\nfreed 0\nok\n" }
{}

/// A reopening drops the cut, and cuts are counted on.
pub fn a_reopening_drops_the_cut()
    ensures legal { IsLegal (fresh_world 2) worked.a_reopening_drops_the_cut }
    ensures text { history_text worked.a_reopening_drops_the_cut ≡ codes "cut 1\nopen 0\nno cut\ncut 2\n" }
{}

/// A second disk fault leaves what the first one put in doubt.
pub fn a_fault_in_a_reopening_keeps_the_doubt()
    ensures legal { IsLegal (fresh_world 2) worked.a_fault_in_a_reopening_keeps_the_doubt }
    ensures text { history_text worked.a_fault_in_a_reopening_keeps_the_doubt
        ≡ codes "ok\nok\ndisk fault\ndisk fault\nbroken 2\nopen 1\nok\nnum 5\n" }
{}

/// A name that was never committed is given again.
pub fn an_aborted_name_is_given_again()
    ensures legal { IsLegal (fresh_world 2) worked.an_aborted_name_is_given_again }
    ensures text { history_text worked.an_aborted_name_is_given_again ≡ codes "ok\nnew 1.0.1\nok\nok\nnew 1.0.1\n" }
{}

/// Copies and marks of another cut are refused, and marks for which there was no memory.
pub fn another_cut_is_told()
    ensures legal { IsLegal (fresh_world 2) worked.another_cut_is_told }
    ensures text { history_text worked.another_cut_is_told ≡ codes "cut 1\nok\ncut 2\nother cut 2\nok\nok\nok\nother cut 2\nmemory\nok\n" }
{}

/// A busy answer doesn't name another than the holder.
pub fn busy_names_the_holder()
    ensures { ¬ IsLegal (fresh_world 2) worked.busy_with_the_wrong_holder }
{}

/// A sweep doesn't free what was born since the opening.
pub fn a_born_object_is_not_freed()
    ensures { ¬ IsLegal (fresh_world 2) worked.a_born_object_is_freed }
{}

/// A sweep doesn't leave what was out of reach as the cut opened.
pub fn a_lost_object_is_not_left()
    ensures { ¬ IsLegal (fresh_world 2) worked.a_lost_object_is_left }
{}

/// A commit adds 1 to the number of commits.
pub fn a_commit_is_not_counted_twice()
    ensures { ¬ IsLegal (fresh_world 2) worked.a_commit_is_counted_twice }
{}

/// A refusal doesn't come before an earlier one whose cause is met.
pub fn refusals_keep_their_order()
    ensures { ¬ IsLegal (fresh_world 2) worked.a_refusal_out_of_order }
{}

/// A sweep doesn't free what is reached.
pub fn a_reached_object_is_not_freed()
    ensures { ¬ IsLegal (fresh_world 2) worked.a_reached_object_is_freed }
{}

/// A page that another open transaction read isn't written.
pub fn a_conflict_is_not_overlooked()
    ensures { ¬ IsLegal (fresh_world 2) worked.a_conflict_is_overlooked }
{}
