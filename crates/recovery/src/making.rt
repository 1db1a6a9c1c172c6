//! Making a fresh store.
ghost use Rattle.std.specs.Prelude.{◌≡◌, ◌≢◌, ◌≤◌, ◌<◌, ◌↔◌, ℕ, Err, IfErr, IfOk, IfSome, IsErrOf, IsTrue, OnOk, not};
ghost use Rattle.disk_trait.specs.Causes.{Rose};
ghost use Rattle.disk_trait.specs.Disk.{IsSynced};
ghost use Rattle.disk_trait.specs.DiskFacts.{KeepsDisk};
ghost use Rattle.redo_journal.specs.Homes.{store_size};
ghost use Rattle.store_model.specs.Worlds.{fresh_world};
ghost use Rattle.image_model.specs.Super.{is_page_count};
ghost use Rattle.image_model.specs.Stores.{IsStore};
ghost use Rattle.image_model.specs.Stands.{opened_world};
ghost use Rattle.image_model.specs.Files.{IsLaid, fresh_page, fresh_pages};

use crate::faults::{LayFault, MakeFault};
use crate::laying::lay;
use crate::sizes::size_of;
use disk_trait::Disk;
use object_graph::{MOST_PAGES, Memory};
use page_image::Page;
use std::alloc::Global;

/// A page of a fresh store: the root stands on page 0.
fn fresh_page(page: u32) -> Page
    requires { page < MOST_PAGES }
    ensures { result ≡ fresh_page page }
{
    let mut fresh = Page::empty(page);
    if page == 0 {
        let Ok(_) = fresh.take_slot() else {
            unreachable!();
        };
    }
    fresh
}

/// The pages of a fresh store.
fn fresh_pages(alloc: Global, count: u32) -> Result<Vec<Page>, Memory>
    requires { count ≤ MOST_PAGES }
    ensures { IfOk result (λ pages. pages.items ≡ fresh_pages count) }
{
    let mut pages = Vec::with_capacity(alloc, count as usize)?;
    'fresh: for page in 0..count {
        pages.push(fresh_page(page))?;
    }
    Ok(pages)
}

/// Makes a fresh store of so many pages. A crash meanwhile may leave anything.
pub fn make<D: Disk>(alloc: Global, disk: &mut D, pages: u64) -> Result<(), MakeFault>
    ensures laid { OnOk result (IfSome (D.content disk.new) (IsLaid 0 (fresh_pages pages))) }
    ensures store { OnOk result (IfSome (D.content disk.new) (λ c. IsStore c (record { commits = 0; pages = fresh_pages pages }))) }
    ensures fresh { OnOk result (IfSome (D.content disk.new) (λ c. opened_world c ≡ fresh_world pages)) }
    ensures synced { OnOk result (IsSynced (D.content disk.new) (D.may_leave disk.new)) }
    ensures bad { (count : ℕ) → (result ≡ Err (MakeFault.BadPages count)) ↔ ((count ≡ pages) × IsTrue (not (is_page_count pages))) }
    ensures short { (len need : ℕ) → (result ≡ Err (MakeFault.TooShort len need)) ↔ ((len ≡ D.size disk.old) × (need ≡ store_size pages) × IsTrue (is_page_count pages) × (len < need)) }
    ensures untouched { IfErr result (λ fault. fault ≢ MakeFault.DiskFault → disk.new ≡ disk.old) }
    ensures calm { OnOk result (D.fault_count disk.new ≡ D.fault_count disk.old) }
    ensures lack { IsErrOf result MakeFault.Memory → D.fault_count disk.new ≡ D.fault_count disk.old }
    ensures fault { IsErrOf result MakeFault.DiskFault → Rose (D.fault_count disk.old) (D.fault_count disk.new) }
    ensures keeps { KeepsDisk D.Disk disk.old disk.new }
{
    if pages < 1 || pages > u64::from(MOST_PAGES) {
        return Err(MakeFault::BadPages { pages });
    }
    let count = pages as u32;
    let len = disk.len();
    let need = size_of(count);
    if len < need {
        return Err(MakeFault::TooShort { len, need });
    }
    let Ok(fresh) = fresh_pages(alloc, count) else {
        return Err(MakeFault::Memory);
    };
    match lay(disk, &fresh, 0) {
        Ok(()) => Ok(()),
        Err(LayFault::TooShort { len, need }) => Err(MakeFault::TooShort { len, need }),
        Err(LayFault::DiskFault) => Err(MakeFault::DiskFault),
    }
}
