//! What follows from the contracts of the calls.
ghost use Rattle.std.specs.Prelude.{◌≡◌, ℕ, true, false, is_some};
ghost use Rattle.object_graph.specs.declared.calls.Call.{Call};
ghost use Rattle.object_graph.specs.declared.calls.Reply.{Reply};
ghost use Rattle.store_model.specs.Worlds.{World, nothing};
ghost use Rattle.store_model.specs.Replies.{may_fail};
ghost use Rattle.store_model.specs.Steps.{committed, after_reply};
ghost use Rattle.transactions.specs.Tables.{entry_of};
ghost use Rattle.transactions.specs.Standing.{TransactionsParts, IsReady, IsReadyForSome, AreTransactionsOf, IsSameToThem, ShowsTheSame};
ghost use Rattle.transactions.specs.Calls.{AnswersIn, TransactsWell};

/// Each answer leaves the transactions ready for the next call, and so does a commit.
pub fn each_call_leaves_them_ready()
    ensures answered { (old new : TransactionsParts) (w : World) (call : Call) (reply : Reply) → may_fail call ≡ false → IsReady old w → AnswersIn new w call reply
        → IsReady new (after_reply w call nothing reply) }
    ensures stepped { (old new : TransactionsParts) (call : Call) (reply : Reply) → may_fail call ≡ false → IsReadyForSome old → TransactsWell old new call reply → IsReadyForSome new }
    ensures finished { (old new : TransactionsParts) (txn : ℕ) → is_some (entry_of old.table txn) ≡ true → IsReadyForSome old
        → ((w : World) → IsReady old w → AreTransactionsOf new (committed w txn)) → IsReadyForSome new }
{}

/// The commits, the cut and the break of a world are nothing to the transactions; and where none is
/// open they stand for each world that shows the same images.
pub fn what_they_do_not_see_is_nothing_to_them()
    ensures same { (s : TransactionsParts) (w v : World) → IsSameToThem w v → AreTransactionsOf s w → AreTransactionsOf s v }
    ensures idle { (s : TransactionsParts) (w v : World) → ShowsTheSame w v → AreTransactionsOf s w → AreTransactionsOf s v }
{}
