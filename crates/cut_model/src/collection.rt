//! What the marks of a closed cut leave, and what sweeps free.
ghost use Rattle.std.specs.Prelude.{◌≡◌, ℕ, ◌<◌, Some, None, List, [], length, slice_index_or, IsTrue};
ghost use Rattle.object_graph.specs.NameParts.{NameParts};
ghost use Rattle.object_graph.specs.SlotParts.{SlotParts};
ghost use Rattle.object_graph.specs.ObjectParts.{ObjectParts};
ghost use Rattle.object_graph.specs.Slots.{has_slot};
ghost use Rattle.object_graph.specs.declared.calls.Call.TheVariants.{Sweep};
ghost use Rattle.object_graph.specs.declared.calls.Reply.TheVariants.{Freed};
ghost use Rattle.object_graph.specs.Members.{In};
ghost use Rattle.store_model.specs.Worlds.{World, Opening, OpenedCut, Note, starts, IsReached, IsLost};
ghost use Rattle.store_model.specs.Causes.{first_refusal};
ghost use Rattle.store_model.specs.Replies.{AllowsReply, MayFree};
ghost use Rattle.store_model.specs.Steps.{swept, with_page};
ghost use Rattle.store_model.specs.Lawful.{IsOrderly};
ghost use Rattle.cut_model.specs.CutPages.{CutPage, bare_page, settled_image, cut_graph, IsMarked};
ghost use Rattle.cut_model.specs.Sound.{IsSafeObject, IsClosedBeside};
ghost use Rattle.cut_model.specs.Doomed.{KeepsDoomed, AreDoomedOn, AreMarks, is_doomed};
ghost use Rattle.cut_model.specs.Standing.{CutBeside, IsStanding};

/// What is reached as a sound cut closes is marked.
pub fn what_is_reached_is_marked()
    ensures { (w : World) (opening : Opening) (pages : List CutPage) (name : NameParts) → IsClosedBeside w opening pages
        → IsReached w name → IsMarked (starts w) pages name }
{}

/// What was out of reach as the cut opened isn't marked.
pub fn what_was_lost_is_unmarked()
    ensures { (w : World) (opening : Opening) (pages : List CutPage) (name : NameParts) → IsClosedBeside w opening pages
        → IsLost opening name → ¬ IsMarked (starts w) pages name }
{}

/// What the marks of a closed sound cut leave is safe to free: it was there as the cut opened, and
/// nothing leads to it. And all that was lost and isn't freed is left.
pub fn a_closed_cut_is_safe_and_complete()
    ensures { (w : World) (opening : Opening) (pages : List CutPage) → IsClosedBeside w opening pages
        → KeepsDoomed w opening (starts w) pages [] }
{}

/// In the images of a sound cut a place is in use under one name.
pub fn one_name_stands_at_each_place()
    ensures { (opening : Opening) (a b : ObjectParts) → IsSafeObject opening a → IsSafeObject opening b
        → a.name.page ≡ b.name.page → a.name.slot ≡ b.name.slot → a.name ≡ b.name }
{}

/// So the slots in use in a settled image that are neither born nor marked are those of the doomed
/// names.
pub fn doomed_slots_are_those_of_doomed_names()
    ensures { (opening : Opening) (from : List NameParts) (pages : List CutPage) (marks : ℕ → ℕ) (page slots : ℕ) (image : List SlotParts)
        → ((o : ObjectParts) → In o (cut_graph pages) → IsSafeObject opening o) → page < length pages
        → settled_image (slice_index_or pages page bare_page) ≡ Some image
        → AreMarks from pages marks → ((slot : ℕ)
        → has_slot slots slot ≡ is_doomed image (slice_index_or pages page bare_page).born (marks page) slot)
        → AreDoomedOn from pages page slots }
{}

/// A sweep may free the doomed slots of a page.
pub fn doomed_slots_may_be_freed()
    ensures { (w : World) (page slots : ℕ) (note : Note) (b : CutBeside) → IsStanding w b → first_refusal w (Sweep page) note ≡ None
        → AreDoomedOn b.starts b.pages page slots → AllowsReply w (Sweep page) note (Freed slots) }
{}

/// A sweep leaves the names doomed that are doomed on other pages, and all that was lost on its own is
/// freed.
pub fn a_sweep_leaves_the_rest_doomed()
    ensures { (w : World) (cut : OpenedCut) (from : List NameParts) (pages : List CutPage) (page slots : ℕ)
        → IsOrderly (swept w page slots) → MayFree w cut.opening page slots
        → KeepsDoomed w cut.opening from pages cut.swept
        → KeepsDoomed (swept w page slots) cut.opening from pages (with_page page cut.swept) }
{}
