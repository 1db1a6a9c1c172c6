//! Opening a store.
ghost use Rattle.std.specs.Prelude.{◌≡◌, ◌≤◌, ℕ, List, Err, IfOk, IfSome, IsErrOf, OnOk};
ghost use Rattle.disk_trait.specs.Causes.{Rose};
ghost use Rattle.disk_trait.specs.Disk.{IsSynced};
ghost use Rattle.disk_trait.specs.DiskFacts.{LeavesOnly, OnlyReads};
ghost use Rattle.image_model.specs.Opening.{not_a_store, damaged};
ghost use Rattle.image_model.specs.Stores.{HasFault};
ghost use Rattle.recovery.specs.Opened.{IsOpenedOn, IsOpenedFrom};

use crate::check::check_pages;
use crate::faults::{OpenFault, PagesFault, SuperFault};
use crate::pages::read_pages;
use crate::super_block::read_super;
use disk_trait::Disk;
use page_image::Page;
use redo_journal::{AreaFault, Journal};
use std::alloc::Global;

/// A store that was opened: its pages, page 0 first, its number of commits, and its journal.
#[derive(Drop)]
pub struct Opened {
    pub pages: Vec<Page>,
    pub commits: u64,
    pub journal: Journal,
}

/// The fault of a super block as one of opening.
fn of_super(fault: SuperFault) -> OpenFault
    ensures disk { result ≡ OpenFault.DiskFault → fault ≡ SuperFault.DiskFault }
    ensures none { result ≡ OpenFault.NotAStore → fault ≡ SuperFault.NotAStore }
    ensures damaged { (at : ℕ) → result ≡ OpenFault.Damaged at → fault ≡ SuperFault.Damaged at }
    ensures memory { result ≡ OpenFault.Memory → ⊥ }
{
    match fault {
        SuperFault::DiskFault => OpenFault::DiskFault,
        SuperFault::NotAStore => OpenFault::NotAStore,
        SuperFault::Damaged { at } => OpenFault::Damaged { at },
    }
}

/// The fault of a journal area as one of opening.
fn of_area(fault: AreaFault) -> OpenFault
    ensures disk { result ≡ OpenFault.DiskFault → fault ≡ AreaFault.DiskFault }
    ensures none { result ≡ OpenFault.NotAStore → ⊥ }
    ensures damaged { (at : ℕ) → result ≡ OpenFault.Damaged at → fault ≡ AreaFault.BadRecord at }
    ensures memory { result ≡ OpenFault.Memory → fault ≡ AreaFault.Memory }
{
    match fault {
        AreaFault::DiskFault => OpenFault::DiskFault,
        AreaFault::BadRecord { at } => OpenFault::Damaged { at },
        AreaFault::Memory => OpenFault::Memory,
    }
}

/// The fault of pages as one of opening.
fn of_pages(fault: PagesFault) -> OpenFault
    ensures disk { result ≡ OpenFault.DiskFault → ⊥ }
    ensures none { result ≡ OpenFault.NotAStore → ⊥ }
    ensures damaged { (at : ℕ) → result ≡ OpenFault.Damaged at → fault ≡ PagesFault.Damaged at }
{
    match fault {
        PagesFault::Damaged { at } => OpenFault::Damaged { at },
        PagesFault::Memory => OpenFault::Memory,
    }
}

/// Reads what the disk holds, whose images and content stay.
fn read_store<D: Disk>(alloc: Global, disk: &mut D) -> Result<Opened, OpenFault>
    ensures opened { IfOk result (IsOpenedOn (D.size disk.old)) }
    ensures found { IfOk result (IsOpenedFrom (D.content disk.old)) }
    ensures none { IsErrOf result OpenFault.NotAStore → IfSome (D.content disk.old) (λ c. HasFault c not_a_store) }
    ensures bad { (at : ℕ) → result ≡ Err (OpenFault.Damaged at) → IfSome (D.content disk.old) (λ c. HasFault c (damaged at)) }
    ensures fault { IsErrOf result OpenFault.DiskFault → Rose (D.fault_count disk.old) (D.fault_count disk.new) }
    ensures calm { OnOk result (D.fault_count disk.new ≡ D.fault_count disk.old) }
    ensures calm_none { IsErrOf result OpenFault.NotAStore → D.fault_count disk.new ≡ D.fault_count disk.old }
    ensures calm_bad { (at : ℕ) → result ≡ Err (OpenFault.Damaged at) → D.fault_count disk.new ≡ D.fault_count disk.old }
    ensures lack { IsErrOf result OpenFault.Memory → D.fault_count disk.new ≡ D.fault_count disk.old }
    ensures later { D.fault_count disk.old ≤ D.fault_count disk.new }
    ensures reads { OnlyReads D.Disk disk.old disk.new }
{
    let found = match read_super(disk) {
        Ok(found) => found,
        Err(fault) => return Err(of_super(fault)),
    };
    let (journal, replay) = match Journal::open_area(alloc, disk, found.area, found.pages) {
        Ok(opened) => opened,
        Err(fault) => return Err(of_area(fault)),
    };
    let pages = read_pages(alloc, disk, &replay.images, found.pages)?;
    match check_pages(alloc, &pages) {
        Ok(()) => {}
        Err(fault) => return Err(of_pages(fault)),
    }
    let commits = journal.base() + journal.commits();
    Ok(Opened {
        pages,
        commits,
        journal,
    })
}

/// Opens the store on a disk, after a sync. It writes nothing (FORMATS.md, "Opening").
pub fn open_store<D: Disk>(alloc: Global, disk: &mut D) -> Result<Opened, OpenFault>
    // What was opened, what the disk holds, or what is wrong with it.
    ensures opened { IfOk result (IsOpenedOn (D.size disk.old)) }
    ensures found { IfOk result (IsOpenedFrom (D.content disk.old)) }
    ensures none { IsErrOf result OpenFault.NotAStore → IfSome (D.content disk.old) (λ c. HasFault c not_a_store) }
    ensures bad { (at : ℕ) → result ≡ Err (OpenFault.Damaged at) → IfSome (D.content disk.old) (λ c. HasFault c (damaged at)) }
    ensures fault { IsErrOf result OpenFault.DiskFault → Rose (D.fault_count disk.old) (D.fault_count disk.new) }
    ensures calm { OnOk result (D.fault_count disk.new ≡ D.fault_count disk.old) }
    ensures calm_none { IsErrOf result OpenFault.NotAStore → D.fault_count disk.new ≡ D.fault_count disk.old }
    ensures calm_bad { (at : ℕ) → result ≡ Err (OpenFault.Damaged at) → D.fault_count disk.new ≡ D.fault_count disk.old }
    ensures lack { IsErrOf result OpenFault.Memory → D.fault_count disk.new ≡ D.fault_count disk.old }
    ensures later { D.fault_count disk.old ≤ D.fault_count disk.new }

    // It begins with a sync, and writes nothing.
    ensures synced { IfOk result (λ x. IsSynced (D.content disk.new) (D.may_leave disk.new)) }
    ensures content { D.content disk.new ≡ D.content disk.old }
    ensures images { (c : List ℕ) → D.may_leave disk.new c → D.may_leave disk.old c }
    ensures size { D.size disk.new ≡ D.size disk.old }
    ensures any_moment { LeavesOnly D.Disk disk.old disk.new (D.may_leave disk.old) }
{
    let Ok(()) = disk.sync() else {
        return Err(OpenFault::DiskFault);
    };
    read_store(alloc, disk)
}
