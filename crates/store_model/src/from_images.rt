//! The world that a store opens to from the images of its pages.
ghost use Rattle.std.specs.Prelude.{◌≡◌, ◌↔◌, ℕ, ◌<◌, ◌&&◌, not, IsTrue, List, length, slice_index_or, []};
ghost use Rattle.object_graph.specs.NameParts.{NameParts};
ghost use Rattle.object_graph.specs.SlotParts.{SlotParts};
ghost use Rattle.object_graph.specs.ObjectParts.{ObjectParts};
ghost use Rattle.object_graph.specs.Members.{In};
ghost use Rattle.object_graph.specs.Graphs.{has_object, objects_at};
ghost use Rattle.store_model.specs.Worlds.{World, fields_of, slots_of, fresh_world, is_freed, new_object, unfreed};
ghost use Rattle.store_model.specs.Images.{shown, all_shown, objects_in};
ghost use Rattle.store_model.specs.Lawful.{IsOrderly, IsLawful, IsPlaced, HaveFields};
ghost use Rattle.store_model.specs.Histories.{IsLegal};
ghost use Rattle.store_model.specs.ImageExamples as worked;
ghost use Rattle.store_model.specs.FromImages.{world_of, slot_in, objects_in_use, is_name_in_use, was_given, AreImages, has_root, IsWhole};

/// The world that images open to shows them.
pub fn opened_world_shows_its_images()
    ensures all { (commits : ℕ) (images : List (List SlotParts)) → AreImages images → all_shown (world_of commits images) ≡ images }
    ensures one { (commits page : ℕ) (images : List (List SlotParts)) → AreImages images → page < length images
        → shown (world_of commits images) page ≡ slice_index_or images page [] }
{}

/// The world that images open to has their objects in use, with their fields; of each place the
/// names up to the stored generation; and freed are those that no object in use has, of which
/// nothing is kept.
pub fn opened_world_has_what_its_images_have()
    ensures in_use { (commits : ℕ) (images : List (List SlotParts)) → AreImages images
        → unfreed (world_of commits images) ≡ objects_in_use images }
    ensures names { (commits : ℕ) (images : List (List SlotParts)) (name : NameParts) → AreImages images
        → has_object (world_of commits images).graph name ≡ was_given images name }
    ensures freed { (commits : ℕ) (images : List (List SlotParts)) (name : NameParts) → AreImages images
        → is_freed (world_of commits images) name ≡ (was_given images name && not (is_name_in_use images name)) }
    ensures blank { (commits : ℕ) (images : List (List SlotParts)) (o : ObjectParts) → AreImages images
        → In o (world_of commits images).graph
        → IsTrue (is_freed (world_of commits images) o.name) → o ≡ new_object (world_of commits images) o.name }
{}

/// The world that images open to is lawful where the root is in use and nothing that is reached
/// refers to what isn't in use.
pub fn opened_world_is_lawful()
    ensures { (commits : ℕ) (images : List (List SlotParts)) → AreImages images → IsTrue (has_root images)
        → IsWhole images → IsLawful (world_of commits images) }
{}

/// The images of a fresh store open to the fresh world.
pub fn a_fresh_store_opens_to_the_fresh_world()
    ensures { (pages : ℕ) → 0 < pages → world_of 0 (all_shown (fresh_world pages)) ≡ fresh_world pages }
{}

/// The objects in use are those that the slots name, on pages and in slots of the store, one at most
/// at each place.
pub fn objects_in_use_are_those_of_the_slots()
    ensures named { (images : List (List SlotParts)) (name : NameParts)
        → has_object (objects_in_use images) name ≡ is_name_in_use images name }
    ensures placed { (images : List (List SlotParts)) (name : NameParts) → AreImages images → IsTrue (is_name_in_use images name)
        → IsPlaced (length images) (slots_of (world_of 0 images)) name }
    ensures one { (images : List (List SlotParts)) (page slot : ℕ)
        → objects_at (objects_in_use images) page slot ≡ objects_in page slot (slot_in images page slot) }
{}

/// An orderly world shows images that a store may have, with the root in use. They tell its unfreed
/// objects, its names and what is freed. In a lawful one, where what is freed is out of reach, nothing
/// that is reached refers to what isn't in use.
pub fn worlds_show_images_of_a_store()
    ensures images { (w : World) → IsOrderly w → HaveFields (fields_of w) w.graph → AreImages (all_shown w) }
    ensures in_use { (w : World) (o : ObjectParts) → IsOrderly w → In o (unfreed w) ↔ In o (objects_in_use (all_shown w)) }
    ensures names { (w : World) (name : NameParts) → IsOrderly w → has_object w.graph name ≡ was_given (all_shown w) name }
    ensures freed { (w : World) (name : NameParts) → IsOrderly w
        → is_freed w name ≡ (was_given (all_shown w) name && not (is_name_in_use (all_shown w) name)) }
    ensures root { (w : World) → IsOrderly w → IsTrue (has_root (all_shown w)) }
    ensures whole { (w : World) → IsLawful w → IsWhole (all_shown w) }
{}

/// A small store with a freed and a lost object, the world that it opens to, and what happens there.
pub fn a_small_store_opens()
    ensures opens { world_of 3 worked.small_images ≡ worked.small_world }
    ensures shows { all_shown worked.small_world ≡ worked.small_images }
    ensures legal { IsLegal worked.small_world worked.from_there }
{}
