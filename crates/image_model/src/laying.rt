//! What a file that was laid opens to.
ghost use Rattle.std.specs.Prelude.{◌≡◌, ◌≤◌, ◌<◌, ℕ, List, Ok};
ghost use Rattle.std.specs.List.{AllByRecursion};
ghost use Rattle.redo_journal.specs.Record.{ReadsBack};
ghost use Rattle.store_model.specs.Worlds.{fresh_world};
ghost use Rattle.image_model.specs.Opening.{StoreParts, open_of};
ghost use Rattle.image_model.specs.Stores.{ArePages, IsStore};
ghost use Rattle.image_model.specs.Stands.{opened_world};
ghost use Rattle.image_model.specs.Files.{IsLaid, fresh_pages};

use object_graph::MOST_COUNTED;

/// It opens to the pages and the commits that were laid.
pub fn a_laid_file_opens_to_what_was_laid()
    ensures { (file : List ℕ) (store : StoreParts) → ArePages store.pages → AllByRecursion ReadsBack store.pages
        → store.commits ≤ MOST_COUNTED
        → IsLaid store.commits store.pages file → open_of file ≡ Ok store }
{}

/// The pages of a fresh store, without a commit, open to the fresh world.
pub fn a_fresh_store_opens_to_the_fresh_world()
    ensures { (file : List ℕ) (pages : ℕ) → 0 < pages → IsStore file (record { commits = 0; pages = fresh_pages pages })
        → opened_world file ≡ fresh_world pages }
{}
