//! Histories in parts, refused replies, and the marks of a run.
ghost use Rattle.std.specs.Prelude.{◌≡◌, ◌↔◌, ℕ, List, [], ◌∷◌, ◌++◌};
ghost use Rattle.object_graph.specs.declared.calls.Call.{Call as AnyCall};
ghost use Rattle.object_graph.specs.declared.calls.Call.TheVariants.{Mark};
ghost use Rattle.object_graph.specs.declared.calls.Refusal.TheVariants.{OtherCut};
ghost use Rattle.object_graph.specs.declared.calls.Reply.TheVariants.{Refused};
ghost use Rattle.store_model.specs.Worlds.{World, Note, Event};
ghost use Rattle.store_model.specs.Replies.{Allows, AllowsReply};
ghost use Rattle.store_model.specs.Steps.{next};
ghost use Rattle.store_model.specs.Histories.{after, IsLegal, HasPresentMarks, IsScriptRun, Makes, Starts, is_refused as tells_refusal};

use object_graph::Reply;

/// Whether a reply refuses its call. A line of several calls stops after the first that is refused.
pub fn is_refused(reply: &Reply) -> bool
    ensures { result ≡ tells_refusal reply.now }
{
    matches!(reply, Reply::Refused { .. })
}

/// A history is legal with one more event exactly where it is legal without it and the event is
/// allowed after it.
pub fn one_more_event()
    ensures after { (w : World) (events : List Event) (e : Event) → after w (events ++ e ∷ []) ≡ next (after w events) e }
    ensures legal { (w : World) (events : List Event) (e : Event)
        → IsLegal w (events ++ e ∷ []) ↔ (IsLegal w events × Allows (after w events) e) }
{}

/// A history in two parts is legal exactly where the first is, and the second is in the world after
/// it.
pub fn histories_in_two_parts()
    ensures after { (w : World) (events more : List Event) → after w (events ++ more) ≡ after (after w events) more }
    ensures legal { (w : World) (events more : List Event)
        → IsLegal w (events ++ more) ↔ (IsLegal w events × IsLegal (after w events) more) }
{}

/// So is a run.
pub fn a_run_in_two_parts()
    ensures { (w : World) (events more : List Event) → IsScriptRun w (events ++ more) ↔ (IsScriptRun w events × IsScriptRun (after w events) more) }
{}

/// Events are the first ones of what a line makes exactly where some further ones make it whole.
pub fn a_part_starts()
    ensures { (calls : List AnyCall) (events : List Event) → Starts calls events ↔ ((more : List Event) × Makes calls (events ++ more) []) }
{}

/// Marks that are none or of the cut that is there are never of another cut.
pub fn present_marks_are_of_no_other_cut()
    ensures { (w : World) (workers number : ℕ) (note : Note) → HasPresentMarks w (Mark workers) note
        → ¬ AllowsReply w (Mark workers) note (Refused (OtherCut number)) }
{}
