//! What an event leaves as it was.
ghost use Rattle.std.specs.Prelude.{◌≡◌, ◌≢◌, ℕ, IsTrue, not, ◌≤◌, Some};
ghost use Rattle.object_graph.specs.NameParts.{NameParts};
ghost use Rattle.object_graph.specs.declared.calls.Call.{Call as AnyCall};
ghost use Rattle.object_graph.specs.declared.calls.Call.TheVariants.{Reopen};
ghost use Rattle.object_graph.specs.declared.calls.Refusal.{Refusal as AnyRefusal};
ghost use Rattle.object_graph.specs.declared.calls.Refusal.TheVariants.{DiskFault, Broken};
ghost use Rattle.object_graph.specs.Graphs.{has_object};
ghost use Rattle.store_model.specs.Worlds.{World, Note, Event, is_freed};
ghost use Rattle.store_model.specs.Causes.{first_refusal};
ghost use Rattle.store_model.specs.Replies.{Allows};
ghost use Rattle.store_model.specs.Steps.{after_refusal, next, changes_graph};
ghost use Rattle.store_model.specs.Lawful.{IsOrderly};

/// A refusal leaves the world, but for a disk fault.
pub fn refusals_leave_the_world()
    ensures { (w : World) (call : AnyCall) (note : Note) (why : AnyRefusal) → why ≢ DiskFault → after_refusal w call note why ≡ w }
{}

/// Only a commit and a reopening change the graph.
pub fn only_commits_and_reopenings_change_the_graph()
    ensures { (w : World) (e : Event) → IsTrue (not (changes_graph e.entry.call)) → (next w e).graph ≡ w.graph }
{}

/// The number of commits does not fall.
pub fn commits_do_not_fall()
    ensures { (w : World) (e : Event) → Allows w e → w.commits ≤ (next w e).commits }
{}

/// What was committed stays in the graph.
pub fn committed_names_stay()
    ensures { (w : World) (e : Event) (name : NameParts) → IsOrderly w → Allows w e → IsTrue (has_object w.graph name)
        → IsTrue (has_object (next w e).graph name) }
{}

/// What was freed stays freed.
pub fn freed_names_stay()
    ensures { (w : World) (e : Event) (name : NameParts) → IsTrue (is_freed w name) → IsTrue (is_freed (next w e) name) }
{}

/// In a broken world every call but a reopening is refused as broken.
pub fn broken_comes_first()
    ensures { (w : World) (call : AnyCall) (note : Note) (count : ℕ) → call ≢ Reopen → w.broken ≡ Some count
        → first_refusal w call note ≡ Some (Broken count) }
{}
