//! Turning over to the other area.
ghost use Rattle.std.specs.Prelude.{◌≡◌, ◌≤◌, ◌+◌, ◌-◌, List, [], ℕ, Some, IfSome, IsSomeAnd, OnOk, OnErr, length, option_map};
ghost use Rattle.disk_trait.specs.Causes.{Rose};
ghost use Rattle.disk_trait.specs.Disk.{written, Torn, Only, IsSynced, TornContent};
ghost use Rattle.disk_trait.specs.DiskFacts.{LeavesOnly, KeepsDisk};
ghost use Rattle.redo_journal.specs.Area.{area_start};
ghost use Rattle.redo_journal.specs.Homes.{store_size};
ghost use Rattle.redo_journal.specs.Journals.{HoldsFor, IsOn};
ghost use Rattle.redo_journal.specs.Sending.{empty_area, turned_over};

use crate::area::start_of;
use crate::journal::Journal;
use disk_trait::{Disk, Failed};
use object_graph::MOST_COUNTED;

/// The bytes of a base and a closed gate.
fn area_bytes(base: u64) -> [u8; 9]
    ensures value { result ≡ empty_area base }
    ensures long { length result ≡ 9 }
{
    let b = base.to_be_bytes();
    [b[0], b[1], b[2], b[3], b[4], b[5], b[6], b[7], 0]
}

/// Writes an empty area with this base at this place, and syncs.
fn write_empty<D: Disk>(disk: &mut D, at: u64, base: u64) -> Result<(), Failed>
    requires within { at + 9 ≤ D.size disk.old }
    ensures any_moment { (c : List ℕ) → D.content disk.old ≡ Some c → Only c (D.may_leave disk.old)
        → LeavesOnly D.Disk disk.old disk.new (Torn at 9 c) }
    ensures written { OnOk result (D.content disk.new ≡ option_map (written at (empty_area base)) (D.content disk.old)) }
    ensures failed { OnErr result (TornContent at 9 (D.content disk.old) (D.content disk.new)) }
    ensures synced { OnOk result (IsSynced (D.content disk.new) (D.may_leave disk.new)) }
    ensures keeps { KeepsDisk D.Disk disk.old disk.new }
    ensures fault { OnErr result (Rose (D.fault_count disk.old) (D.fault_count disk.new)) }
    ensures calm { OnOk result (D.fault_count disk.new ≡ D.fault_count disk.old) }
{
    disk.write_at(at, &area_bytes(base))?;
    disk.sync()
}

impl Journal {
    /// Turns over to the other area, which it makes empty with this base: steps three and four of a
    /// checkpoint (FORMATS.md, "Journal"). The staged record stays. After `Failed` the journal must
    /// be opened again.
    pub fn turn_over<D: Disk>(&mut self, disk: &mut D, commits: u64) -> Result<(), Failed>
        requires few { commits ≤ MOST_COUNTED }
        requires long { store_size self.old.pages ≤ D.size disk.old }
        requires own { IfSome (D.content disk.old) (IsOn self.old) }

        // From `Ok` on the journal stands for the other area, which is empty, also after a crash.
        ensures turned { OnOk result (self.new ≡ turned_over commits self.old) }
        ensures empty { OnOk result ((c : List ℕ) → D.content disk.old ≡ Some c → IsSomeAnd (D.content disk.new) (HoldsFor self.new [])) }
        ensures synced { OnOk result (IsSynced (D.content disk.new) (D.may_leave disk.new)) }

        // It writes the other area's base and gate, and nothing else at any moment.
        ensures written { OnOk result (D.content disk.new ≡ option_map (written (area_start (1 - self.old.area)) (empty_area commits)) (D.content disk.old)) }
        ensures failed { OnErr result (TornContent (area_start (1 - self.old.area)) 9 (D.content disk.old) (D.content disk.new)) }
        ensures any_moment { (c : List ℕ) → D.content disk.old ≡ Some c → Only c (D.may_leave disk.old)
            → LeavesOnly D.Disk disk.old disk.new (Torn (area_start (1 - self.old.area)) 9 c) }

        ensures unchanged { OnErr result (self.new ≡ self.old) }
        ensures keeps { KeepsDisk D.Disk disk.old disk.new }
        ensures fault { OnErr result (Rose (D.fault_count disk.old) (D.fault_count disk.new)) }
        ensures calm { OnOk result (D.fault_count disk.new ≡ D.fault_count disk.old) }
    {
        let other = 1 - self.area;
        write_empty(disk, start_of(other), commits)?;
        self.area = other;
        self.base = commits;
        self.commits = 0;
        self.end = 8;
        self.places.clear();
        Ok(())
    }
}
