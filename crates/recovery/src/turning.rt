//! The checkpoint.
ghost use Rattle.std.specs.Prelude.{◌≡◌, ◌≤◌, ◌<◌, ◌+◌, ◌∷◌, [], ℕ, List, Some, IfSome, IsSomeAnd, OnOk, OnErr, length, option_map};
ghost use Rattle.disk_trait.specs.Causes.{Rose};
ghost use Rattle.disk_trait.specs.Disk.{written, Torn, Only, IsSynced, TornContent};
ghost use Rattle.disk_trait.specs.DiskFacts.{LeavesOnly, KeepsDisk};
ghost use Rattle.redo_journal.specs.Homes.{store_size};
ghost use Rattle.redo_journal.specs.Sending.{turned_over};
ghost use Rattle.store_model.specs.States.{State};
ghost use Rattle.image_model.specs.Super.{switch_place};
ghost use Rattle.image_model.specs.Stands.{StandsFor, IsJournalOf, IsStoreOf};

use disk_trait::{Disk, Failed};
use redo_journal::Journal;

/// Where the switch byte stands in the store file.
const SWITCH_PLACE: u64 = 512;

/// Writes the switch byte for an area, and syncs.
fn write_switch<D: Disk>(disk: &mut D, area: u32) -> Result<(), Failed>
    requires which { area < 2 }
    requires within { switch_place < D.size disk.old }
    ensures any_moment { (c : List ℕ) → D.content disk.old ≡ Some c → Only c (D.may_leave disk.old)
        → LeavesOnly D.Disk disk.old disk.new (Torn switch_place 1 c) }
    ensures written { OnOk result (D.content disk.new ≡ option_map (written switch_place (area ∷ [])) (D.content disk.old)) }
    ensures torn { TornContent switch_place 1 (D.content disk.old) (D.content disk.new) }
    ensures synced { OnOk result (IsSynced (D.content disk.new) (D.may_leave disk.new)) }
    ensures keeps { KeepsDisk D.Disk disk.old disk.new }
    ensures fault { OnErr result (Rose (D.fault_count disk.old) (D.fault_count disk.new)) }
    ensures calm { OnOk result (D.fault_count disk.new ≡ D.fault_count disk.old) }
{
    disk.write_at(SWITCH_PLACE, &[area as u8])?;
    disk.sync()
}

/// Sends the journal home, and makes the other area the active one: the images of the counted
/// records are written to their homes, and after a sync the other area is made empty with this
/// number of commits, and after a further sync the switch byte is written (FORMATS.md, "Journal").
/// After `Failed` the journal must be opened again.
pub fn checkpoint<D: Disk>(disk: &mut D, journal: &mut Journal, commits: u64) -> Result<(), Failed>
    requires counted { commits ≡ journal.old.base + journal.old.commits }
    requires long { store_size journal.old.pages ≤ D.size disk.old }
    requires own { IfSome (D.content disk.old) (IsStoreOf journal.old) }

    // What the file stood for it stands for at every moment, whatever it answers.
    ensures any_moment { (c : List ℕ) (pages : ℕ) (s : State) → D.content disk.old ≡ Some c → Only c (D.may_leave disk.old) → StandsFor c pages s
        → LeavesOnly D.Disk disk.old disk.new (λ f. StandsFor f pages s) }
    ensures stands { (c : List ℕ) (pages : ℕ) (s : State) → D.content disk.old ≡ Some c → StandsFor c pages s → IsSomeAnd (D.content disk.new) (λ f. StandsFor f pages s) }

    // From `Ok` on the other area is the active one, and is empty.
    ensures turned { OnOk result (journal.new ≡ turned_over commits journal.old) }
    ensures own { OnOk result (IfSome (D.content disk.new) (IsJournalOf journal.new [])) }
    ensures synced { OnOk result (IsSynced (D.content disk.new) (D.may_leave disk.new)) }

    ensures keeps { KeepsDisk D.Disk disk.old disk.new }
    ensures fault { OnErr result (Rose (D.fault_count disk.old) (D.fault_count disk.new)) }
    ensures calm { OnOk result (D.fault_count disk.new ≡ D.fault_count disk.old) }
{
    let other = 1 - journal.area();
    journal.commits();
    journal.send_home(disk)?;
    journal.turn_over(disk, commits)?;
    write_switch(disk, other)
}
