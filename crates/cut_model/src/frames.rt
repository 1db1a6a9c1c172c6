//! What calls change in the image that a view shows, slot by slot, and what they leave.
ghost use Rattle.std.specs.Prelude.{◌≡◌, ◌≢◌, ℕ, ◌<◌, true, false, None, List, ◌++◌, replicate, slice_index_or, slice_set, IsTrue};
ghost use Rattle.std.specs.List.{list_any, AllByRecursion};
ghost use Rattle.object_graph.specs.NameParts.{NameParts};
ghost use Rattle.object_graph.specs.Names.{name_eq};
ghost use Rattle.object_graph.specs.ObjectParts.{ObjectParts};
ghost use Rattle.object_graph.specs.Graphs.{has_name, is_at, objects_at};
ghost use Rattle.object_graph.specs.Members.{In};
ghost use Rattle.store_model.specs.Worlds.{World, Transaction, Write, slots_of, fields_of, starts, view, is_unfreed};
ghost use Rattle.store_model.specs.Images.{shown, shown_in, shown_slot, unfreed_at, no_slot};
ghost use Rattle.store_model.specs.Causes.{has_page};
ghost use Rattle.store_model.specs.Steps.{writes, makes};
ghost use Rattle.store_model.specs.Lawful.{CountsUp, OnlyLastUnfreed, IsLawfulTransaction, IsApart, IsOrderly};
ghost use Rattle.cut_model.specs.Frames.{written_name, written_slot, freed_slot};

/// In the view of an open transaction names count up too, and only the last of a place is unfreed.
pub fn views_are_in_order()
    ensures { (w : World) (t : Transaction) → IsOrderly w → In t w.transactions → CountsUp (view w t) × OnlyLastUnfreed (view w t) w.freed }
{}

/// A write changes the slot of its object in the image of the page, and no other.
pub fn a_write_changes_one_slot()
    ensures { (w : World) (t : Transaction) (write : Write) (page : ℕ) (o : ObjectParts) → CountsUp (view w t)
        → OnlyLastUnfreed (view w t) w.freed → In o (view w t)
        → IsTrue (is_unfreed w.freed o) → o.name ≡ written_name write → (written_name write).slot < slots_of w (written_name write).page
        → shown_in w (view w (writes write page t)) (written_name write).page
        ≡ slice_set (shown_in w (view w t) (written_name write).page) (written_name write).slot
        (written_slot write (slice_index_or (shown_in w (view w t) (written_name write).page) (written_name write).slot no_slot)) }
{}

/// A write leaves the images of other pages.
pub fn a_write_leaves_other_pages()
    ensures { (w : World) (t : Transaction) (write : Write) (page other : ℕ) → (written_name write).page ≢ other
        → shown_in w (view w (writes write page t)) other ≡ shown_in w (view w t) other }
{}

/// A new object takes its slot, with number 0 and no references.
pub fn a_new_object_takes_its_slot()
    ensures { (w : World) (t : Transaction) (name : NameParts)
        → AllByRecursion (λ o. IsTrue (has_name w.freed o.name)) (objects_at w.graph name.page name.slot)
        → list_any (is_at name.page name.slot) t.own ≡ false → has_name w.freed name ≡ false
        → AllByRecursion (λ write. name_eq name (written_name write) ≡ false) t.writes
        → shown_slot (fields_of w name.page) (view w (makes name t)) w.freed name.page name.slot
        ≡ record { in_use = true; generation = name.generation; number = 0; refs = replicate (fields_of w name.page) None } }
{}

/// A new object leaves the other slots.
pub fn a_new_object_leaves_other_slots()
    ensures { (fields : ℕ) (w : World) (t : Transaction) (name : NameParts) (page slot : ℕ) → is_at page slot name ≡ false
        → shown_slot fields (view w (makes name t)) w.freed page slot ≡ shown_slot fields (view w t) w.freed page slot }
{}

/// A slot whose name is freed is free, and keeps its generation.
pub fn a_sweep_frees_its_slots()
    ensures { (fields : ℕ) (graph : List ObjectParts) (freed names : List NameParts) (o : ObjectParts) → CountsUp graph
        → OnlyLastUnfreed graph freed → In o graph → IsTrue (is_unfreed freed o)
        → IsTrue (has_name names o.name)
        → shown_slot fields graph (names ++ freed) o.name.page o.name.slot
        ≡ freed_slot fields (shown_slot fields graph freed o.name.page o.name.slot) }
{}

/// The other slots stay.
pub fn a_sweep_leaves_other_slots()
    ensures { (fields : ℕ) (graph : List ObjectParts) (freed names : List NameParts) (page slot : ℕ)
        → ((o : ObjectParts) → In o (unfreed_at graph freed page slot) → has_name names o.name ≡ false)
        → shown_slot fields graph (names ++ freed) page slot ≡ shown_slot fields graph freed page slot }
{}

/// A commit leaves the committed image of each page that it didn't write.
pub fn a_commit_leaves_other_pages()
    ensures { (w : World) (t : Transaction) (page : ℕ) → IsOrderly w → In t w.transactions
        → has_page t.pages_written page ≡ false → shown_in w (view w t) page ≡ shown w page }
{}

/// A commit leaves the image of each page that another open transaction wrote, as that one sees it.
pub fn a_commit_leaves_other_views()
    ensures { (w : World) (t u : Transaction) (page : ℕ) → IsLawfulTransaction w.graph w.freed t → IsApart t u
        → has_page u.pages_written page ≡ true
        → shown_in w (view (record w { graph = view w t }) u) page ≡ shown_in w (view w u) page }
{}
