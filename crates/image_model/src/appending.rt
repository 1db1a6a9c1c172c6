//! What a record that is appended does to the state for which a store file stands.
ghost use Rattle.std.specs.Prelude.{◌≡◌, ◌⊎◌, ◌+◌, ◌++◌, ◌∷◌, [], ℕ, List, None};
ghost use Rattle.object_graph.specs.declared.calls.Call.TheVariants.{Commit, Sweep};
ghost use Rattle.object_graph.specs.declared.calls.Reply.TheVariants.{Freed};
ghost use Rattle.page_image.specs.Pages.{PageParts};
ghost use Rattle.redo_journal.specs.Journals.{JournalParts, IsAppendedOrNot, IsAppended, appended};
ghost use Rattle.redo_journal.specs.Record.{RecordParts};
ghost use Rattle.store_model.specs.Causes.{first_refusal};
ghost use Rattle.store_model.specs.Lawful.{IsLawful};
ghost use Rattle.store_model.specs.Replies.{AllowsReply, MayFreeNow};
ghost use Rattle.store_model.specs.Steps.{swept};
ghost use Rattle.store_model.specs.Worlds.{World, Note, no_doubt, commit_in_doubt, sweep_in_doubt, transaction};
ghost use Rattle.store_model.specs.States.{State, state_of, state_after};
ghost use Rattle.image_model.specs.Stands.{StandsFor, StandsForWorld, IsJournalOf};
ghost use Rattle.image_model.specs.Records.{IsAfterRecord, AreOfCommit, IsOfSweep, commit_record, sweep_record};

/// While a record is appended the file stands for the state before it or after it.
pub fn a_record_leaves_before_or_after()
    ensures { (file other : List ℕ) (pages : ℕ) (s t : State) (journal : JournalParts) (records : List RecordParts) (new : RecordParts)
        → StandsFor file pages s → IsJournalOf journal records file → IsAfterRecord pages new s t
        → IsAppendedOrNot journal records new file other
        → StandsFor other pages s ⊎ StandsFor other pages t }
{}

/// A record that counts has made its state, and the journal is still the store's.
pub fn a_record_that_counts_has_made_its_state()
    ensures stands { (file other : List ℕ) (pages : ℕ) (s t : State) (journal : JournalParts)
        (records : List RecordParts) (new : RecordParts)
        → StandsFor file pages s → IsJournalOf journal records file → IsAfterRecord pages new s t
        → IsAppended (appended new journal) records new file other → StandsFor other pages t }
    ensures own { (file other : List ℕ) (journal : JournalParts) (records : List RecordParts) (new : RecordParts)
        → IsJournalOf journal records file → IsAppended (appended new journal) records new file other
        → IsJournalOf (appended new journal) (records ++ new ∷ []) other }
{}

/// A commit's record does to the images what the commit does to the state.
pub fn a_commits_record_makes_its_state()
    ensures { (w : World) (number : ℕ) (note : Note) (images : List PageParts) → IsLawful w
        → first_refusal w (Commit number) note ≡ None → AreOfCommit w (transaction w number) images
        → IsAfterRecord w.pages (commit_record images) (state_of w) (state_after w (transaction w number)) }
{}

/// A sweep's record does to the image of its page what the sweep does to the state.
pub fn a_sweeps_record_makes_its_state()
    ensures { (w : World) (page slots : ℕ) (note : Note) (image : PageParts) → IsLawful w
        → AllowsReply w (Sweep page) note (Freed slots) → IsOfSweep w page slots image
        → IsAfterRecord w.pages (sweep_record image) (state_of w) (state_of (swept w page slots)) }
{}

/// What is in doubt need not be found done, and where nothing is in doubt there is one state.
pub fn nothing_in_doubt_need_be_found()
    ensures undone { (file : List ℕ) (w : World) → StandsFor file w.pages (state_of w) → StandsForWorld file w }
    ensures one { (file : List ℕ) (w : World) → w.doubt ≡ no_doubt → StandsForWorld file w → StandsFor file w.pages (state_of w) }
{}

/// A commit in doubt may be found done.
pub fn a_commit_in_doubt_may_be_found()
    ensures { (file : List ℕ) (w : World) (number : ℕ) → w.doubt ≡ commit_in_doubt number
        → StandsFor file w.pages (state_after w (transaction w number)) → StandsForWorld file w }
{}

/// So may a sweep.
pub fn a_sweep_in_doubt_may_be_found()
    ensures { (file : List ℕ) (w : World) (page slots : ℕ) → w.doubt ≡ sweep_in_doubt page → MayFreeNow w page slots
        → StandsFor file w.pages (state_of (swept w page slots)) → StandsForWorld file w }
{}
