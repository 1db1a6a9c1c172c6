//! The bytes of an area.
ghost use Rattle.std.specs.Prelude.{◌≡◌, ◌≤◌, ◌+◌, ◌*◌, ℕ, Err, IfOk, IfSome, IsErrOf, OnOk, length};
ghost use Rattle.disk_trait.specs.Causes.{Rose};
ghost use Rattle.disk_trait.specs.DiskFacts.{OnlyReads};
ghost use Rattle.redo_journal.specs.Area.{area_of, area_start};
ghost use Rattle.redo_journal.specs.declared.faults.AreaFault.TheVariants.{BadRecord, DiskFault, Memory};

use crate::faults::AreaFault;
use crate::sizes::{AREA_SIZE, HEAD_SIZE};
use disk_trait::Disk;
use std::alloc::Global;

/// Where an area begins in the store file.
pub(crate) fn start_of(area: u32) -> u64
    ensures { result ≡ area_start area }
{
    HEAD_SIZE + AREA_SIZE * u64::from(area)
}

/// Reads an area.
pub(crate) fn read_area<D: Disk>(
    alloc: Global,
    disk: &mut D,
    area: u32,
) -> Result<Vec<u8>, AreaFault>
    requires long { area_start area + AREA_SIZE ≤ D.size disk.old }
    ensures whole { IfOk result (λ bytes. length bytes.items ≡ AREA_SIZE) }
    ensures read { IfOk result (λ bytes. IfSome (D.content disk.old) (λ c. bytes.items ≡ area_of area c)) }
    ensures unread { (at : ℕ) → result ≡ Err (BadRecord at) → ⊥ }
    ensures fault { IsErrOf result DiskFault → Rose (D.fault_count disk.old) (D.fault_count disk.new) }
    ensures calm { OnOk result (D.fault_count disk.new ≡ D.fault_count disk.old) }
    ensures lack { result ≡ Err Memory → D.fault_count disk.new ≡ D.fault_count disk.old }
    ensures later { D.fault_count disk.old ≤ D.fault_count disk.new }
    ensures reads { OnlyReads D.Disk disk.old disk.new }
{
    let Ok(mut bytes) = vec![in alloc; 0u8; AREA_SIZE as usize] else {
        return Err(AreaFault::Memory);
    };
    match disk.read_at(start_of(area), &mut bytes) {
        Ok(()) => Ok(bytes),
        Err(_) => Err(AreaFault::DiskFault),
    }
}
