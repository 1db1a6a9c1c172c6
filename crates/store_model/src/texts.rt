//! Texts tell what they are the texts of.
ghost use Rattle.std.specs.Prelude.{◌≡◌, IsTrue, not};
ghost use Rattle.object_graph.specs.declared.calls.Call.{Call as AnyCall};
ghost use Rattle.object_graph.specs.declared.calls.Refusal.{Refusal as AnyRefusal};
ghost use Rattle.object_graph.specs.declared.calls.Reply.{Reply as AnyReply};
ghost use Rattle.store_model.specs.Texts.{reply_text, reply_numbers, FreesSlots, AreShort, call_text, call_numbers, is_hand_in, refusal_text, refusal_numbers};

/// No two calls have one text. A copy that is handed in is left out: its text is that of a copy.
pub fn no_two_calls_have_one_text()
    ensures { (a b : AnyCall) → IsTrue (not (is_hand_in a)) → IsTrue (not (is_hand_in b)) → AreShort (call_numbers a)
        → AreShort (call_numbers b) → call_text a ≡ call_text b → a ≡ b }
{}

/// No two refusals have one text.
pub fn no_two_refusals_have_one_text()
    ensures { (a b : AnyRefusal) → AreShort (refusal_numbers a) → AreShort (refusal_numbers b) → refusal_text a ≡ refusal_text b → a ≡ b }
{}

/// No two replies have one text, where those that tell what was freed tell sets of slots.
pub fn no_two_replies_have_one_text()
    ensures { (a b : AnyReply) → FreesSlots a → FreesSlots b → AreShort (reply_numbers a) → AreShort (reply_numbers b)
        → reply_text a ≡ reply_text b → a ≡ b }
{}
