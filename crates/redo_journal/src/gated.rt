//! Bytes behind a gate, and a record behind it.
ghost use Rattle.std.specs.Prelude.{◌≡◌, ◌≤◌, ◌<◌, ◌+◌, ◌^◌, List, ℕ, Some, length, OnOk, OnErr, option_map, ◌*◌};
ghost use Rattle.std.specs.List.{AllByRecursion};
ghost use Rattle.disk_trait.specs.Causes.{Rose};
ghost use Rattle.disk_trait.specs.Disk.{Only, IsSynced};
ghost use Rattle.disk_trait.specs.DiskFacts.{LeavesOnly, KeepsDisk};
ghost use Rattle.redo_journal.specs.Gated.{TornBehind, behind_open};
ghost use Rattle.redo_journal.specs.Record.{ReadsBack, spelled_with_gate};

use crate::kind::Kind;
use crate::sizes::{FRAME_SIZE, IMAGE_SIZE, LONGEST_RECORD};
use crate::spelling::put_record;
use disk_trait::{Disk, Failed};
use object_graph::MOST_WRITTEN;
use page_image::Page;

/// Writes the bytes behind a closed gate, and opens it once they are safe.
pub(crate) fn write_behind<D: Disk>(disk: &mut D, gate: u64, bytes: &[u8]) -> Result<(), Failed>
    requires within { gate + 1 + length bytes.now ≤ D.size disk.old }
    requires small { gate < 2 ^ 32 }
    ensures any_moment { (c : List ℕ) → D.content disk.old ≡ Some c → Only c (D.may_leave disk.old)
        → LeavesOnly D.Disk disk.old disk.new (TornBehind gate bytes.now c) }
    ensures done { OnOk result (D.content disk.new ≡ option_map (behind_open gate bytes.now) (D.content disk.old)) }
    ensures calm { OnOk result (D.fault_count disk.new ≡ D.fault_count disk.old) }
    ensures synced { OnOk result (IsSynced (D.content disk.new) (D.may_leave disk.new)) }
    ensures fault { OnErr result (Rose (D.fault_count disk.old) (D.fault_count disk.new)) }
    ensures keeps { KeepsDisk D.Disk disk.old disk.new }
{
    disk.write_at(gate + 1, bytes)?;
    disk.sync()?;
    disk.write_at(gate, &[1])?;
    disk.sync()
}

/// Writes a record behind a closed gate, which is opened once the record is safe.
pub(crate) fn write_record<D: Disk>(
    disk: &mut D,
    gate: u64,
    kind: Kind,
    images: &[Page],
    buffer: &mut [u8],
) -> Result<(), Failed>
    requires within { gate + 1 + (FRAME_SIZE + IMAGE_SIZE * length images.now) ≤ D.size disk.old }
    requires small { gate < 2 ^ 32 }
    requires few { length images.now ≤ MOST_WRITTEN }
    requires room { length buffer.old ≡ LONGEST_RECORD }
    ensures any_moment { (c : List ℕ) → D.content disk.old ≡ Some c → Only c (D.may_leave disk.old)
        → LeavesOnly D.Disk disk.old disk.new (TornBehind gate (spelled_with_gate (record { kind = kind; images = images.now })) c) }
    ensures done { OnOk result (D.content disk.new ≡ option_map (behind_open gate (spelled_with_gate (record { kind = kind; images = images.now }))) (D.content disk.old)) }
    ensures synced { OnOk result (IsSynced (D.content disk.new) (D.may_leave disk.new)) }
    ensures again { AllByRecursion ReadsBack images.now }
    ensures calm { OnOk result (D.fault_count disk.new ≡ D.fault_count disk.old) }
    ensures room { length buffer.new ≡ LONGEST_RECORD }
    ensures fault { OnErr result (Rose (D.fault_count disk.old) (D.fault_count disk.new)) }
    ensures keeps { KeepsDisk D.Disk disk.old disk.new }
{
    put_record(buffer, kind, images);
    let size = FRAME_SIZE + IMAGE_SIZE * images.len();
    write_behind(disk, gate, buffer.split_at(size).0)
}
