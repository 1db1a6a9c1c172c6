//! Which bytes of a store file are of no meaning while its journal is sent home.
ghost use Rattle.std.specs.Prelude.{◌≡◌, ◌≤◌, ◌-◌, ℕ, List, Some};
ghost use Rattle.disk_trait.specs.Disk.{Torn};
ghost use Rattle.redo_journal.specs.Area.{area_start};
ghost use Rattle.redo_journal.specs.Homes.{DiffersInHomes};
ghost use Rattle.redo_journal.specs.Replays.{is_named};
ghost use Rattle.store_model.specs.States.{State};
ghost use Rattle.image_model.specs.Super.{SuperParts, super_of, switch_place};
ghost use Rattle.image_model.specs.Opening.{counted_of};
ghost use Rattle.image_model.specs.Stands.{StandsFor};
ghost use Rattle.image_model.specs.Files.{IsReadyToSwitch};

use redo_journal::AREA_SIZE;

/// The homes that a counted record names are of no meaning.
pub fn named_homes_are_free()
    ensures { (file other : List ℕ) (pages : ℕ) (s : State) → StandsFor file pages s
        → DiffersInHomes (is_named (counted_of file)) file other → StandsFor other pages s }
{}

/// The area that isn't active is of no meaning.
pub fn the_other_area_is_free()
    ensures { (file other : List ℕ) (pages size : ℕ) (s : State) (super : SuperParts) → StandsFor file pages s
        → super_of file ≡ Some super → size ≤ AREA_SIZE
        → Torn (area_start (1 - super.area)) size file other → StandsFor other pages s }
{}

/// Where each home has the final image of its page and the other area is empty with the same number
/// of commits, either area may be found active: the switch byte may be any.
pub fn either_area_may_be_active()
    ensures { (file other : List ℕ) (pages : ℕ) (s : State) (super : SuperParts) → StandsFor file pages s
        → IsReadyToSwitch super s.commits file
        → Torn switch_place 1 file other → StandsFor other pages s }
{}
