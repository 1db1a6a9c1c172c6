//! Reading the final images of a store's pages, many homes at once.
ghost use Rattle.std.specs.Prelude.{◌≡◌, ◌≤◌, ◌<◌, ◌+◌, ◌*◌, ℕ, Err, Ok, IfOk, IfSome, IsErrOf, OnOk, length};
ghost use Rattle.disk_trait.specs.Causes.{Rose};
ghost use Rattle.disk_trait.specs.Disk.{piece};
ghost use Rattle.disk_trait.specs.DiskFacts.{OnlyReads};
ghost use Rattle.object_graph.specs.Slots.{below};
ghost use Rattle.redo_journal.specs.Homes.{home_start, store_size};
ghost use Rattle.redo_journal.specs.Record.{numbers_of};
ghost use Rattle.redo_journal.specs.Replays.{AreLatest};
ghost use Rattle.image_model.specs.Opening.{each_of};
ghost use Rattle.recovery.specs.Reading.{page_in};

use crate::faults::OpenFault;
use crate::homes::read_homes_in;
use crate::sizes::{PIECE_PAGES, home_of};
use disk_trait::Disk;
use object_graph::MOST_PAGES;
use page_image::Page;
use redo_journal::PAGE_SIZE;
use std::alloc::Global;

/// Reads so many homes from this page's on.
fn read_homes<D: Disk>(
    alloc: Global,
    disk: &mut D,
    first: u32,
    count: usize,
) -> Result<Vec<u8>, OpenFault>
    requires few { first < MOST_PAGES }
    requires small { count ≤ PIECE_PAGES }
    requires within { home_start first + PAGE_SIZE * count ≤ D.size disk.old }
    ensures long { IfOk result (λ bytes. length bytes.items ≡ PAGE_SIZE * count) }
    ensures read { IfOk result (λ bytes. IfSome (D.content disk.old) (λ c. bytes.items ≡ piece (home_start first) (PAGE_SIZE * count) c)) }
    ensures none { IsErrOf result OpenFault.NotAStore → ⊥ }
    ensures bad { (at : ℕ) → result ≡ Err (OpenFault.Damaged at) → ⊥ }
    ensures fault { IsErrOf result OpenFault.DiskFault → Rose (D.fault_count disk.old) (D.fault_count disk.new) }
    ensures later { D.fault_count disk.old ≤ D.fault_count disk.new }
    ensures calm { OnOk result (D.fault_count disk.new ≡ D.fault_count disk.old) }
    ensures lack { IsErrOf result OpenFault.Memory → D.fault_count disk.new ≡ D.fault_count disk.old }
    ensures reads { OnlyReads D.Disk disk.old disk.new }
{
    let Ok(mut bytes) = vec![in alloc; 0u8; PAGE_SIZE * count] else {
        return Err(OpenFault::Memory);
    };
    match disk.read_at(home_of(first), &mut bytes) {
        Ok(()) => Ok(bytes),
        Err(_) => Err(OpenFault::DiskFault),
    }
}

/// The images of so many pages, page 0 first: those among these, and what the other homes have.
pub(crate) fn read_pages<D: Disk>(
    alloc: Global,
    disk: &mut D,
    images: &[Page],
    count: u32,
) -> Result<Vec<Page>, OpenFault>
    requires few { count ≤ MOST_PAGES }
    requires long { store_size count ≤ D.size disk.old }
    requires images { AreLatest count images.now }
    ensures read { IfOk result (λ pages. IfSome (D.content disk.old) (λ c. each_of (page_in images.now c) (below count) ≡ Ok pages.items)) }
    ensures bad { (at : ℕ) → result ≡ Err (OpenFault.Damaged at) → IfSome (D.content disk.old) (λ c. each_of (page_in images.now c) (below count) ≡ Err at) }
    ensures numbered { IfOk result (λ pages. numbers_of pages.items ≡ below count) }
    ensures store { IsErrOf result OpenFault.NotAStore → ⊥ }
    ensures fault { IsErrOf result OpenFault.DiskFault → Rose (D.fault_count disk.old) (D.fault_count disk.new) }
    ensures later { D.fault_count disk.old ≤ D.fault_count disk.new }
    ensures calm { OnOk result (D.fault_count disk.new ≡ D.fault_count disk.old) }
    ensures calm_bad { (at : ℕ) → result ≡ Err (OpenFault.Damaged at) → D.fault_count disk.new ≡ D.fault_count disk.old }
    ensures lack { IsErrOf result OpenFault.Memory → D.fault_count disk.new ≡ D.fault_count disk.old }
    ensures reads { OnlyReads D.Disk disk.old disk.new }
{
    let Ok(mut pages) = Vec::with_capacity(alloc, count as usize) else {
        return Err(OpenFault::Memory);
    };
    let mut next = 0;
    'pieces: while pages.len() < count as usize {
        let some = PIECE_PAGES.min(count as usize - pages.len());
        let bytes = read_homes(alloc, disk, pages.len() as u32, some)?;
        read_homes_in(images, &mut next, &bytes, &mut pages)?;
    }
    Ok(pages)
}
