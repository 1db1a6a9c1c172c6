//! Laying a store.
ghost use Rattle.std.specs.Prelude.{◌≡◌, ◌≢◌, ◌≤◌, ◌<◌, ◌+◌, ◌*◌, ◌++◌, ◌↔◌, ℕ, Err, IfErr, IfSome, IsErrOf, OnErr, OnOk, length, replicate};
ghost use Rattle.std.specs.List.{AllByRecursion, flat_map};
ghost use Rattle.disk_trait.specs.Causes.{Rose};
ghost use Rattle.disk_trait.specs.Disk.{IsSynced};
ghost use Rattle.disk_trait.specs.DiskFacts.{KeepsDisk};
ghost use Rattle.page_image.specs.Spelling.{page_bytes};
ghost use Rattle.redo_journal.specs.Homes.{home_start, store_size};
ghost use Rattle.redo_journal.specs.Record.{ReadsBack};
ghost use Rattle.image_model.specs.Super.{super_bytes};
ghost use Rattle.image_model.specs.Opening.{page_slots};
ghost use Rattle.image_model.specs.Stores.{ArePages, IsRooted, IsStore};
ghost use Rattle.image_model.specs.Files.{IsLaid, area_bytes};
ghost use Rattle.recovery.specs.Writing.{Extends};

use crate::blocks::{area_start, spell, super_block};
use crate::faults::LayFault;
use crate::sizes::{AREA_PIECES, PIECE_PAGES, PIECE_SIZE, home_of, size_of};
use disk_trait::{Disk, Failed};
use object_graph::{MOST_COUNTED, MOST_PAGES};
use page_image::Page;
use redo_journal::{AREA_SIZE, HEAD_SIZE, HOMES_START, PAGE_SIZE};

/// Writes bytes behind all that stands before them.
fn put<D: Disk>(disk: &mut D, at: u64, bytes: &[u8]) -> Result<(), Failed>
    requires { at + length bytes.now ≤ D.size disk.old }
    ensures front { OnOk result (Extends at (at + length bytes.now) bytes.now (D.content disk.old) (D.content disk.new)) }
    ensures calm { OnOk result (D.fault_count disk.new ≡ D.fault_count disk.old) }
    ensures fault { OnErr result (Rose (D.fault_count disk.old) (D.fault_count disk.new)) }
    ensures keeps { KeepsDisk D.Disk disk.old disk.new }
{
    disk.write_at(at, bytes)
}

/// Writes zeros in an area, so many pieces of them.
fn write_zeros<D: Disk>(disk: &mut D, at: u64, pieces: u64) -> Result<(), Failed>
    requires before { at + PIECE_SIZE * pieces ≤ HOMES_START }
    requires within { HOMES_START ≤ D.size disk.old }
    ensures front { OnOk result (Extends at (at + PIECE_SIZE * pieces) (replicate (PIECE_SIZE * pieces) 0) (D.content disk.old) (D.content disk.new)) }
    ensures calm { OnOk result (D.fault_count disk.new ≡ D.fault_count disk.old) }
    ensures fault { OnErr result (Rose (D.fault_count disk.old) (D.fault_count disk.new)) }
    ensures keeps { KeepsDisk D.Disk disk.old disk.new }
{
    let zeros = [0; PIECE_SIZE];
    'pieces: for piece in 0..pieces {
        put(disk, at + PIECE_SIZE as u64 * piece, &zeros)?;
    }
    Ok(())
}

/// Writes an area without records.
fn write_area<D: Disk>(disk: &mut D, at: u64, commits: u64) -> Result<(), Failed>
    requires before { at + AREA_SIZE ≤ HOMES_START }
    requires within { HOMES_START ≤ D.size disk.old }
    ensures front { OnOk result (Extends at (at + AREA_SIZE) (area_bytes commits) (D.content disk.old) (D.content disk.new)) }
    ensures calm { OnOk result (D.fault_count disk.new ≡ D.fault_count disk.old) }
    ensures fault { OnErr result (Rose (D.fault_count disk.old) (D.fault_count disk.new)) }
    ensures keeps { KeepsDisk D.Disk disk.old disk.new }
{
    put(disk, at, &area_start(commits))?;
    write_zeros(disk, at + PIECE_SIZE as u64, AREA_PIECES - 1)
}

/// Writes the super block and both areas.
fn write_front<D: Disk>(disk: &mut D, pages: u32, commits: u64) -> Result<(), Failed>
    requires { HOMES_START ≤ D.size disk.old }
    ensures front { OnOk result (Extends 0 HOMES_START ((super_bytes pages ++ area_bytes commits) ++ area_bytes commits) (D.content disk.old) (D.content disk.new)) }
    ensures calm { OnOk result (D.fault_count disk.new ≡ D.fault_count disk.old) }
    ensures fault { OnErr result (Rose (D.fault_count disk.old) (D.fault_count disk.new)) }
    ensures keeps { KeepsDisk D.Disk disk.old disk.new }
{
    put(disk, 0, &super_block(pages))?;
    write_area(disk, HEAD_SIZE, commits)?;
    write_area(disk, HEAD_SIZE + AREA_SIZE, commits)
}

/// Writes the homes of a piece's pages at once; `first` is the number of the first of them.
fn write_piece<D: Disk>(disk: &mut D, first: u32, pages: &[Page]) -> Result<(), Failed>
    requires few { length pages.now ≤ PIECE_PAGES }
    requires within { home_start (first + length pages.now) ≤ D.size disk.old }
    ensures front { OnOk result (Extends (home_start first) (home_start (first + length pages.now)) (flat_map page_bytes pages.now) (D.content disk.old) (D.content disk.new)) }
    ensures back { AllByRecursion ReadsBack pages.now }
    ensures calm { OnOk result (D.fault_count disk.new ≡ D.fault_count disk.old) }
    ensures fault { OnErr result (Rose (D.fault_count disk.old) (D.fault_count disk.new)) }
    ensures keeps { KeepsDisk D.Disk disk.old disk.new }
{
    let mut buffer = [0; PIECE_SIZE];
    spell(pages, &mut buffer);
    put(
        disk,
        home_of(first),
        buffer.split_at(PAGE_SIZE * pages.len()).0,
    )
}

/// Writes the homes of the pages, many at once.
fn write_homes<D: Disk>(disk: &mut D, pages: &[Page]) -> Result<(), Failed>
    requires few { length pages.now ≤ MOST_PAGES }
    requires within { store_size (length pages.now) ≤ D.size disk.old }
    ensures front { OnOk result (Extends (home_start 0) (store_size (length pages.now)) (flat_map page_bytes pages.now) (D.content disk.old) (D.content disk.new)) }
    ensures back { OnOk result (AllByRecursion ReadsBack pages.now) }
    ensures calm { OnOk result (D.fault_count disk.new ≡ D.fault_count disk.old) }
    ensures fault { OnErr result (Rose (D.fault_count disk.old) (D.fault_count disk.new)) }
    ensures keeps { KeepsDisk D.Disk disk.old disk.new }
{
    let mut done = 0;
    'pieces: while done < pages.len() {
        let some = PIECE_PAGES.min(pages.len() - done);
        let piece = pages.split_at(done).1.split_at(some).0;
        write_piece(disk, done as u32, piece)?;
        done += some;
    }
    Ok(())
}

/// Writes a store.
fn write_all<D: Disk>(disk: &mut D, pages: &[Page], commits: u64) -> Result<(), Failed>
    requires few { length pages.now ≤ MOST_PAGES }
    requires within { store_size (length pages.now) ≤ D.size disk.old }
    ensures laid { OnOk result (IfSome (D.content disk.new) (IsLaid commits pages.now)) }
    ensures back { OnOk result (AllByRecursion ReadsBack pages.now) }
    ensures calm { OnOk result (D.fault_count disk.new ≡ D.fault_count disk.old) }
    ensures fault { OnErr result (Rose (D.fault_count disk.old) (D.fault_count disk.new)) }
    ensures keeps { KeepsDisk D.Disk disk.old disk.new }
{
    write_front(disk, pages.len() as u32, commits)?;
    write_homes(disk, pages)
}

/// Writes a store, and syncs.
fn write_store<D: Disk>(disk: &mut D, pages: &[Page], commits: u64) -> Result<(), Failed>
    requires few { length pages.now ≤ MOST_PAGES }
    requires within { store_size (length pages.now) ≤ D.size disk.old }
    ensures laid { OnOk result (IfSome (D.content disk.new) (IsLaid commits pages.now)) }
    ensures back { OnOk result (AllByRecursion ReadsBack pages.now) }
    ensures synced { OnOk result (IsSynced (D.content disk.new) (D.may_leave disk.new)) }
    ensures calm { OnOk result (D.fault_count disk.new ≡ D.fault_count disk.old) }
    ensures fault { OnErr result (Rose (D.fault_count disk.old) (D.fault_count disk.new)) }
    ensures keeps { KeepsDisk D.Disk disk.old disk.new }
{
    write_all(disk, pages, commits)?;
    disk.sync()
}

/// Writes a store of these pages and so many commits, and syncs. It takes no memory. A crash
/// meanwhile may leave anything.
pub fn lay<D: Disk>(disk: &mut D, pages: &[Page], commits: u64) -> Result<(), LayFault>
    requires pages { ArePages pages.now }
    requires rooted { IsRooted (page_slots pages.now) }
    requires few { commits ≤ MOST_COUNTED }
    ensures laid { OnOk result (IfSome (D.content disk.new) (IsLaid commits pages.now)) }
    ensures store { OnOk result (IfSome (D.content disk.new) (λ c. IsStore c (record { commits = commits; pages = pages.now }))) }
    ensures synced { OnOk result (IsSynced (D.content disk.new) (D.may_leave disk.new)) }
    ensures short { (len need : ℕ) → (result ≡ Err (LayFault.TooShort len need)) ↔ ((len ≡ D.size disk.old) × (need ≡ store_size (length pages.now)) × (len < need)) }
    ensures untouched { IfErr result (λ fault. fault ≢ LayFault.DiskFault → disk.new ≡ disk.old) }
    ensures calm { OnOk result (D.fault_count disk.new ≡ D.fault_count disk.old) }
    ensures fault { IsErrOf result LayFault.DiskFault → Rose (D.fault_count disk.old) (D.fault_count disk.new) }
    ensures keeps { KeepsDisk D.Disk disk.old disk.new }
{
    let len = disk.len();
    let need = size_of(pages.len() as u32);
    if len < need {
        return Err(LayFault::TooShort { len, need });
    }
    match write_store(disk, pages, commits) {
        Ok(()) => Ok(()),
        Err(_) => Err(LayFault::DiskFault),
    }
}
