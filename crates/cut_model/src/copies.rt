//! Copies while a cut is copied, of whatever ages.
ghost use Rattle.std.specs.Prelude.{◌≡◌, ℕ, ◌<◌, false, List, length, replicate, slice_index_or, slice_set};
ghost use Rattle.object_graph.specs.Members.{In};
ghost use Rattle.store_model.specs.Worlds.{World, Event, Transaction, Opening};
ghost use Rattle.store_model.specs.Replies.{Allows};
ghost use Rattle.store_model.specs.Steps.{next, opening_of};
ghost use Rattle.store_model.specs.Lawful.{IsOrderly};
ghost use Rattle.store_model.specs.States.{State, state_of, state_after};
ghost use Rattle.cut_model.specs.States.{KeepsOpening};
ghost use Rattle.cut_model.specs.CutPages.{CutPage, CopyParts, bare_page, with_copy};
ghost use Rattle.cut_model.specs.Sound.{IsSound, IsFit, IsFitCopy};
ghost use Rattle.cut_model.specs.Frames.{copy_now};
ghost use Rattle.cut_model.specs.Changes.{IsCutAfter, Changes, GivesImages, ends_copying};

/// A cut that opens is sound, and keeps its opening.
pub fn a_cut_opens_sound()
    ensures opening { (w : World) → IsOrderly w → KeepsOpening w (opening_of w) }
    ensures sound { (w : World) (pages : ℕ) → IsSound (state_of w) (opening_of w) (replicate pages bare_page) }
{}

/// A page's frame as it stands is a fit copy.
pub fn a_frame_is_a_fit_copy()
    ensures { (w : World) (opening : Opening) (page : ℕ) (p : CutPage) → IsOrderly w → KeepsOpening w opening
        → IsFitCopy (state_of w) opening page p (copy_now w page) }
{}

/// A fit copy stays fit while the cut is copied, where each commit gives an after-image of each page
/// that it wrote.
pub fn a_fit_copy_stays_fit()
    ensures { (w : World) (opening : Opening) (e : Event) (pages after : List CutPage) (page : ℕ) (c : CopyParts)
        → IsOrderly w → page < length pages → Allows w e → ends_copying e.entry.call ≡ false
        → Changes w opening e.entry.call e.entry.reply pages after → GivesImages w e.entry.call e.entry.reply after
        → IsFit (state_of w) opening page (slice_index_or pages page bare_page) c
        → IsFit (state_of (next w e)) opening page (slice_index_or after page bare_page) c }
{}

/// A fit copy of a page keeps the cut sound.
pub fn a_fit_copy_keeps_the_cut_sound()
    ensures { (s : State) (opening : Opening) (pages : List CutPage) (page : ℕ) (c : CopyParts)
        → IsSound s opening pages → page < length pages
        → IsFitCopy s opening page (slice_index_or pages page bare_page) c
        → IsSound s opening (slice_set pages page (with_copy c (slice_index_or pages page bare_page))) }
{}

/// A commit keeps the cut sound that gives an after-image of each page that it wrote, or of each that
/// had an image already.
pub fn a_commit_keeps_the_cut_sound()
    ensures { (w : World) (t : Transaction) (opening : Opening) (pages after : List CutPage) → IsOrderly w
        → In t w.transactions → KeepsOpening w opening
        → IsCutAfter w t pages after → IsSound (state_of w) opening pages → IsSound (state_after w t) opening after }
{}

/// Each allowed event keeps a cut sound while it is copied.
pub fn each_event_keeps_the_cut_sound()
    ensures { (w : World) (opening : Opening) (e : Event) (pages after : List CutPage) → IsOrderly w
        → KeepsOpening w opening → Allows w e → ends_copying e.entry.call ≡ false
        → Changes w opening e.entry.call e.entry.reply pages after
        → IsSound (state_of w) opening pages → IsSound (state_of (next w e)) opening after }
{}

/// It also keeps what the world keeps of the opening: what was lost stays out of reach, and each place
/// keeps its name.
pub fn each_event_keeps_the_opening()
    ensures { (w : World) (opening : Opening) (e : Event) → IsOrderly w → Allows w e
        → ends_copying e.entry.call ≡ false → KeepsOpening w opening → KeepsOpening (next w e) opening }
{}
