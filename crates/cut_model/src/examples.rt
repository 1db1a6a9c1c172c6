//! Small cuts that compute, and the same with an image left out.
ghost use Rattle.std.specs.Prelude.{[], ◌∷◌, take, drop};
ghost use Rattle.std.specs.List.{AllByRecursion};
ghost use Rattle.store_model.specs.Examples.{nothing_is_collected};
ghost use Rattle.cut_model.specs.Courses.{IsUndisturbing, RunsThrough};
ghost use Rattle.object_graph.specs.Names.{root_name};
ghost use Rattle.store_model.specs.States.{state_of};
ghost use Rattle.cut_model.specs.CutPages.{IsMarked};
ghost use Rattle.cut_model.specs.Sound.{IsSound};
ghost use Rattle.cut_model.specs.Examples as worked;

/// A page that was copied while a reference in it was taken away still marks the reference's target,
/// by its before-image.
pub fn a_dirty_copy_marks_what_was_committed()
    ensures { IsMarked (root_name ∷ []) worked.dirty_cut worked.linked }
{}

/// Without its before-image the copy makes the cut unsound once the transaction aborts.
pub fn a_copy_without_its_before_image_is_unsound()
    ensures { ¬ IsSound (state_of (worked.dirty_at 10)) worked.dirty_opening worked.lossy_cut }
{}

/// A pointer that moved from a page copied later to one copied earlier marks its target, by the
/// after-image.
pub fn a_moved_pointer_marks_its_target()
    ensures { IsMarked (root_name ∷ []) worked.moved_cut worked.target }
{}

/// Without that after-image the cut is unsound.
pub fn a_cut_without_an_after_image_is_unsound()
    ensures { ¬ IsSound (state_of (worked.moved_at 16)) worked.moved_opening worked.stale_cut }
{}

/// A whole collection runs through, undisturbed.
pub fn a_collection_runs_through()
    ensures runs { RunsThrough 1 2 (take 6 (drop 1 nothing_is_collected)) }
    ensures undisturbed { AllByRecursion IsUndisturbing (take 6 (drop 1 nothing_is_collected)) }
{}
