//! What each world of a history keeps, and what follows from it.
ghost use Rattle.std.specs.Prelude.{◌≡◌, ℕ, ◌+◌, suc, Some, false, not, IsTrue, ◌<◌, ◌≤◌, ◌⊎◌, List, length, map, MatchOption};
ghost use Rattle.std.specs.List.{AllByRecursion};
ghost use Rattle.object_graph.specs.NameParts.{NameParts, IsName};
ghost use Rattle.object_graph.specs.SlotParts.{SlotParts};
ghost use Rattle.object_graph.specs.Slots.{below};
ghost use Rattle.object_graph.specs.declared.calls.Call.TheVariants.{New, Commit, OpenCut, EndCut};
ghost use Rattle.object_graph.specs.declared.calls.Reply.TheVariants.{Done, Made, Committed, Cut};
ghost use Rattle.object_graph.specs.declared.limits.TheConstants.{MOST_PAGES, LAST_GENERATION};
ghost use Rattle.object_graph.specs.Graphs.{has_name, has_object, objects_at, HasEachNameOnce};
ghost use Rattle.store_model.specs.Worlds.{World, Transaction, OpenedCut, Note, Event, IsLost, fields_of, fresh_world, transaction, is_freed, IsReached, IsHeldBy};
ghost use Rattle.object_graph.specs.Members.{In};
ghost use Rattle.store_model.specs.Replies.{Allows, AllowsReply};
ghost use Rattle.store_model.specs.Steps.{next, after_reply};
ghost use Rattle.store_model.specs.Histories.{after, IsLegal};
ghost use Rattle.store_model.specs.Worlds.{IsOutOfReach};
ghost use Rattle.store_model.specs.Lawful.{IsOrderly, IsLawful, HaveFields, HasProperNames, generations_at};
ghost use Rattle.store_model.specs.FromImages.{world_of, slot_in, AreImages};

/// The world of a fresh store is lawful.
pub fn fresh_worlds_are_lawful()
    ensures { (pages : ℕ) → 0 < pages → IsLawful (fresh_world pages) }
{}

/// Each allowed event leaves a lawful world lawful.
pub fn each_event_keeps_the_world_lawful()
    ensures { (w : World) (e : Event) → IsLawful w → Allows w e → IsLawful (next w e) }
{}

/// So does a legal history.
pub fn histories_keep_the_world_lawful()
    ensures { (w : World) (events : List Event) → IsLawful w → IsLegal w events → IsLawful (after w events) }
{}

/// The names of a place count up from generation 1.
pub fn names_count_up()
    ensures { (w : World) (page slot : ℕ) → IsLawful w
        → generations_at w.graph page slot ≡ map suc (below (length (objects_at w.graph page slot))) }
{}

/// The name of a new object is in no committed object and in no open transaction.
pub fn a_new_name_is_new()
    ensures committed { (w : World) (number page : ℕ) (note : Note) (name : NameParts) → IsOrderly w
        → AllowsReply w (New number page) note (Made name) → has_object w.graph name ≡ false }
    ensures own { (w : World) (number page : ℕ) (note : Note) (name : NameParts) → IsOrderly w
        → AllowsReply w (New number page) note (Made name)
        → AllByRecursion (λ t. has_name t.own name ≡ false) w.transactions }
{}

/// What an open transaction holds is reached, or its own.
pub fn what_a_transaction_holds_is_reached_or_its_own()
    ensures { (w : World) (t : Transaction) (name : NameParts) → IsOrderly w → In t w.transactions → IsHeldBy w t name
        → IsTrue (has_name t.own name) ⊎ IsReached w name }
{}

/// A commit adds to what is reached only own objects of the transaction that commits.
pub fn a_commit_reaches_own_objects_alone()
    ensures { (w : World) (number commits : ℕ) (note : Note) (name : NameParts) → IsOrderly w
        → AllowsReply w (Commit number) note (Committed commits)
        → IsReached (after_reply w (Commit number) note (Committed commits)) name
        → IsTrue (has_name (transaction w number).own name) ⊎ IsReached w name }
{}

/// What is committed and out of reach stays so: nobody holds it, then and after each event.
pub fn what_is_out_of_reach_stays_so()
    ensures now { (w : World) (name : NameParts) → IsOrderly w → IsTrue (has_object w.graph name) → ¬ IsReached w name
        → IsOutOfReach w name }
    ensures then_ { (w : World) (e : Event) (name : NameParts) → IsOrderly w → Allows w e
        → IsTrue (has_object w.graph name) → ¬ IsReached w name → IsOutOfReach (next w e) name }
{}

/// What is freed is out of reach of the root and of every open transaction.
pub fn what_is_freed_is_out_of_reach()
    ensures { (w : World) (name : NameParts) → IsLawful w → IsTrue (is_freed w name) → IsOutOfReach w name }
{}

/// Where the end of a cut is answered as done, all that was out of reach as it opened is freed.
pub fn an_ended_cut_has_freed_all_that_was_lost()
    ensures { (w : World) (cut : OpenedCut) (note : Note) (name : NameParts) → IsLawful w → w.cut ≡ Some cut
        → AllowsReply w EndCut note Done → IsLost cut.opening name → IsTrue (is_freed w name) }
{}

/// So from the opening of a cut to its end: whatever was committed, unfreed and out of reach as the
/// cut of this number opened is freed in the world in which its end is answered as done.
pub fn what_was_out_of_reach_as_a_cut_opened_is_freed_as_it_ends()
    ensures { (w : World) (note end_note : Note) (events : List Event) (cut : OpenedCut) (name : NameParts) → IsLawful w
        → AllowsReply w OpenCut note (Cut (w.last_cut + 1))
        → IsLegal (after_reply w OpenCut note (Cut (w.last_cut + 1))) events
        → (after (after_reply w OpenCut note (Cut (w.last_cut + 1))) events).cut ≡ Some cut → cut.number ≡ w.last_cut + 1
        → AllowsReply (after (after_reply w OpenCut note (Cut (w.last_cut + 1))) events) EndCut end_note Done
        → IsTrue (has_object w.graph name) → IsTrue (not (is_freed w name)) → ¬ IsReached w name
        → IsTrue (is_freed (after (after_reply w OpenCut note (Cut (w.last_cut + 1))) events) name) }
{}

/// The cut that is there is the last that was opened.
pub fn the_cut_that_is_there_is_the_last()
    ensures { (w : World) (events : List Event) → MatchOption w.cut (Unit {0}) (λ cut. cut.number ≡ w.last_cut)
        → MatchOption (after w events).cut (Unit {0}) (λ cut. cut.number ≡ (after w events).last_cut) }
{}

/// Each object has as many references as an object of its page: in a fresh store, in one that is
/// opened from images, and after each event.
pub fn objects_have_their_fields()
    ensures fresh { (pages : ℕ) → HaveFields (fields_of (fresh_world pages)) (fresh_world pages).graph }
    ensures opened { (commits : ℕ) (images : List (List SlotParts)) → AreImages images
        → HaveFields (fields_of (world_of commits images)) (world_of commits images).graph }
    ensures kept { (w : World) (events : List Event) → HaveFields (fields_of w) w.graph
        → HaveFields (fields_of (after w events)) (after w events).graph }
{}

/// Each name of the graph is there once.
pub fn each_name_is_there_once()
    ensures { (w : World) → IsOrderly w → HasEachNameOnce w.graph }
{}

/// The names of a world are names, in a fresh store, in one that is opened from images whose
/// generations don't pass the last one, and after each event. So are what is freed and what an open
/// transaction knows.
pub fn names_of_a_world_are_names()
    ensures fresh { (pages : ℕ) → pages ≤ MOST_PAGES → HasProperNames (fresh_world pages) }
    ensures opened { (commits : ℕ) (images : List (List SlotParts)) → AreImages images → length images ≤ MOST_PAGES
        → ((page slot : ℕ) → (slot_in images page slot).generation ≤ LAST_GENERATION) → HasProperNames (world_of commits images) }
    ensures kept { (w : World) (e : Event) → IsOrderly w → HasProperNames w → Allows w e → HasProperNames (next w e) }
    ensures histories { (w : World) (events : List Event) → IsLawful w → HasProperNames w → IsLegal w events
        → HasProperNames (after w events) }
    ensures freed { (w : World) (name : NameParts) → IsOrderly w → HasProperNames w → IsTrue (is_freed w name) → IsName name }
    ensures known { (w : World) (t : Transaction) (name : NameParts) → IsOrderly w → HasProperNames w
        → In t w.transactions → IsTrue (has_name t.known name) → IsName name }
{}
