//! What stands beside a world stands after each event; a cut that runs through ends.
ghost use Rattle.std.specs.Prelude.{◌≡◌, ℕ, ◌<◌, List, []};
ghost use Rattle.std.specs.List.{AllByRecursion};
ghost use Rattle.object_graph.specs.declared.calls.Call.TheVariants.{OpenCut, EndCut};
ghost use Rattle.object_graph.specs.declared.calls.Reply.{Reply as AnyReply};
ghost use Rattle.object_graph.specs.declared.calls.Reply.TheVariants.{Done, Cut};
ghost use Rattle.store_model.specs.Worlds.{World, Note, nothing, Event, fresh_world};
ghost use Rattle.store_model.specs.Replies.{Allows, AllowsReply};
ghost use Rattle.store_model.specs.Steps.{after_reply, next};
ghost use Rattle.store_model.specs.Histories.{after, IsLegal};
ghost use Rattle.cut_model.specs.Standing.{CutBeside, nothing_copied, IsStanding, Turns, TurnsThrough};
ghost use Rattle.cut_model.specs.Courses.{IsUndisturbing, RunsThrough};

/// The world of a fresh store stands, with no cut beside it.
pub fn a_fresh_store_stands()
    ensures { (pages : ℕ) → 0 < pages → IsStanding (fresh_world pages) (nothing_copied 0) }
{}

/// Each allowed event leaves what stands, with what the call does to the cut.
pub fn each_event_leaves_what_stands()
    ensures { (w : World) (e : Event) (b after : CutBeside) → IsStanding w b → Allows w e
        → Turns w e.entry.call e.entry.reply b after → IsStanding (next w e) after }
{}

/// So does each legal history.
pub fn histories_leave_what_stands()
    ensures { (w : World) (b : CutBeside) (events : List Event) (last : CutBeside) → IsStanding w b → IsLegal w events
        → TurnsThrough w b events last
        → IsStanding (after w events) last }
{}

/// From the opening of a cut on, with no fault and nothing that takes the cut away, after a copy of
/// each page, then the closing, then the marks of this cut, and then a sweep of each page the end is
/// answered as done, and otherwise by no reply.
pub fn a_cut_that_runs_through_ends()
    ensures may { (w : World) (note : Note) (number : ℕ) (events : List Event) → AllowsReply w OpenCut note (Cut number)
        → IsLegal (after_reply w OpenCut note (Cut number)) events
        → AllByRecursion IsUndisturbing events → RunsThrough number w.pages events
        → AllowsReply (after (after_reply w OpenCut note (Cut number)) events) EndCut nothing Done }
    ensures only { (w : World) (note : Note) (number : ℕ) (events : List Event) (reply : AnyReply)
        → AllowsReply w OpenCut note (Cut number) → IsLegal (after_reply w OpenCut note (Cut number)) events
        → AllByRecursion IsUndisturbing events → RunsThrough number w.pages events
        → AllowsReply (after (after_reply w OpenCut note (Cut number)) events) EndCut nothing reply → reply ≡ Done }
{}
