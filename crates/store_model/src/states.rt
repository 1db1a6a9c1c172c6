//! The states of a world: what a reopening may find of it.
ghost use Rattle.std.specs.Prelude.{◌≡◌, ℕ, ◌⊎◌, List, Some};
ghost use Rattle.object_graph.specs.NameParts.{NameParts};
ghost use Rattle.object_graph.specs.declared.calls.Call.TheVariants.{Reopen};
ghost use Rattle.object_graph.specs.declared.calls.Reply.TheVariants.{Reopened};
ghost use Rattle.store_model.specs.Worlds.{World, Note, no_doubt, commit_in_doubt, sweep_in_doubt, found, transaction};
ghost use Rattle.store_model.specs.Replies.{AllowsReply, MayFreeNow};
ghost use Rattle.store_model.specs.Steps.{after_reply, swept};
ghost use Rattle.store_model.specs.States.{State, IsStateOf, state_of, state_after};

/// What is committed is a state of the world, and the only one where nothing is in doubt.
pub fn what_is_committed_is_a_state()
    ensures always { (w : World) → IsStateOf w (state_of w) }
    ensures alone { (w : World) (s : State) → w.doubt ≡ no_doubt → IsStateOf w s → s ≡ state_of w }
{}

/// A commit in doubt is done or it isn't.
pub fn a_commit_in_doubt_is_done_or_not()
    ensures done { (w : World) (number : ℕ) → w.doubt ≡ commit_in_doubt number → IsStateOf w (state_after w (transaction w number)) }
    ensures only { (w : World) (number : ℕ) (s : State) → w.doubt ≡ commit_in_doubt number → IsStateOf w s
        → (s ≡ state_of w) ⊎ (s ≡ state_after w (transaction w number)) }
{}

/// A sweep in doubt freed a set of slots that a sweep of its page may free, or it freed nothing.
pub fn a_sweep_in_doubt_is_done_or_not()
    ensures done { (w : World) (page slots : ℕ) → w.doubt ≡ sweep_in_doubt page → MayFreeNow w page slots
        → IsStateOf w (state_of (swept w page slots)) }
    ensures only { (w : World) (page : ℕ) (s : State) → w.doubt ≡ sweep_in_doubt page → IsStateOf w s
        → (s ≡ state_of w) ⊎ ((slots : ℕ) × MayFreeNow w page slots × (s ≡ state_of (swept w page slots))) }
{}

/// A reopening leaves a state of the world as what is committed, and it may leave each of them.
pub fn a_reopening_finds_a_state()
    ensures finds { (w : World) (note : Note) (commits : ℕ) → AllowsReply w Reopen note (Reopened commits)
        → IsStateOf w (state_of (after_reply w Reopen note (Reopened commits))) }
    ensures may_be_found { (w : World) (s : State) → IsStateOf w s
        → (names : List NameParts) × AllowsReply w Reopen (found names) (Reopened s.commits)
        × (s ≡ state_of (after_reply w Reopen (found names) (Reopened s.commits))) }
{}

/// A further fault leaves the states.
pub fn a_further_fault_leaves_the_states()
    ensures { (w : World) (count : ℕ) (s : State) → IsStateOf w s → IsStateOf (record w { broken = Some count }) s }
{}
