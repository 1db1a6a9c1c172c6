//! What a legal history promises of what it frees, as laws.
ghost use Rattle.std.specs.Prelude.{List};
ghost use Rattle.store_model.specs.Worlds.{World, Event};
ghost use Rattle.store_model.specs.Lawful.{IsLawful};
ghost use Rattle.store_model.specs.Histories.{IsLegal};
ghost use Rattle.store_machine.specs.Promises.{IsSafe, IsCollected};

/// At each moment what is freed is out of reach of the root and of every open transaction.
pub fn histories_free_what_is_out_of_reach()
    ensures { (w : World) (history : List Event) → IsLawful w → IsLegal w history → IsSafe w history }
{}

/// As a cut ends, all that was out of reach as it opened is freed.
pub fn whole_cuts_free_all_that_was_out_of_reach()
    ensures { (w : World) (history : List Event) → IsLawful w → IsLegal w history → IsCollected w history }
{}
