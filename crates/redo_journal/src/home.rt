//! Sending the images of counted records home.
ghost use Rattle.std.specs.Prelude.{◌≡◌, ◌≤◌, ◌+◌, ◌*◌, ℕ, List, Some, IfSome, IsSomeAnd, OnOk, OnErr, option_map};
ghost use Rattle.std.specs.List.{All};
ghost use Rattle.disk_trait.specs.Causes.{Rose};
ghost use Rattle.disk_trait.specs.Disk.{piece, written, Torn, Only, IsSynced, TornContent};
ghost use Rattle.disk_trait.specs.DiskFacts.{LeavesOnly, KeepsDisk};
ghost use Rattle.page_image.specs.Pages.{PageParts};
ghost use Rattle.redo_journal.specs.Homes.{store_size, home_start, DiffersInHomes, AreHome, AreSentHome};
ghost use Rattle.redo_journal.specs.Journals.{HoldsFor, IsOn};
ghost use Rattle.redo_journal.specs.Places.{StandAt};
ghost use Rattle.redo_journal.specs.Record.{RecordParts};
ghost use Rattle.redo_journal.specs.Replays.{has_image, is_named};
ghost use Rattle.redo_journal.specs.Sending.{After, ChangesHomes};

use crate::journal::Journal;
use crate::places::{ImagePlace, has_page};
use crate::sizes::{HOMES_START, PAGE_SIZE};
use disk_trait::{Disk, Failed};

/// Where the home of a page begins in the store file.
fn home_of(page: u32) -> u64
    ensures { result ≡ home_start page }
{
    HOMES_START + PAGE_SIZE as u64 * u64::from(page)
}

/// Copies an image.
fn copy_image<D: Disk>(disk: &mut D, from: u64, to: u64) -> Result<(), Failed>
    requires from { from + PAGE_SIZE ≤ D.size disk.old }
    requires to { to + PAGE_SIZE ≤ D.size disk.old }
    ensures copied { OnOk result (D.content disk.new ≡ option_map (λ c. written to (piece from PAGE_SIZE c) c) (D.content disk.old)) }
    ensures torn { TornContent to PAGE_SIZE (D.content disk.old) (D.content disk.new) }
    ensures any_moment { LeavesOnly D.Disk disk.old disk.new (After (Torn to PAGE_SIZE) (D.may_leave disk.old)) }
    ensures keeps { KeepsDisk D.Disk disk.old disk.new }
    ensures fault { OnErr result (Rose (D.fault_count disk.old) (D.fault_count disk.new)) }
    ensures calm { OnOk result (D.fault_count disk.new ≡ D.fault_count disk.old) }
{
    let mut image = [0; PAGE_SIZE];
    disk.read_at(from, &mut image)?;
    disk.write_at(to, &image)
}

/// Sends home the last image of each page at these places.
fn send_images<D: Disk>(disk: &mut D, places: &[ImagePlace]) -> Result<(), Failed>
    requires within { All (λ place. place.at + PAGE_SIZE ≤ HOMES_START) places.now }
    requires homes { All (λ place. home_start place.page + PAGE_SIZE ≤ D.size disk.old) places.now }
    ensures sent { OnOk result ((c : List ℕ) (images : List PageParts) → D.content disk.old ≡ Some c → StandAt places.now images c
        → IsSomeAnd (D.content disk.new) (AreHome images c)) }
    ensures homes { (c : List ℕ) (images : List PageParts) → D.content disk.old ≡ Some c → StandAt places.now images c
        → ChangesHomes D.Disk (has_image images) disk.old disk.new }
    ensures keeps { KeepsDisk D.Disk disk.old disk.new }
    ensures fault { OnErr result (Rose (D.fault_count disk.old) (D.fault_count disk.new)) }
    ensures calm { OnOk result (D.fault_count disk.new ≡ D.fault_count disk.old) }
{
    for i in 0..places.len() {
        let place = places[i];
        if !has_page(places.split_at(i + 1).1, place.page) {
            copy_image(disk, place.at, home_of(place.page))?;
        }
    }
    Ok(())
}

/// Sends home the last image of each page at these places, and syncs.
fn send_and_sync<D: Disk>(disk: &mut D, places: &[ImagePlace]) -> Result<(), Failed>
    requires within { All (λ place. place.at + PAGE_SIZE ≤ HOMES_START) places.now }
    requires homes { All (λ place. home_start place.page + PAGE_SIZE ≤ D.size disk.old) places.now }
    ensures sent { OnOk result ((c : List ℕ) (images : List PageParts) → D.content disk.old ≡ Some c → StandAt places.now images c
        → IsSomeAnd (D.content disk.new) (AreHome images c)) }
    ensures synced { OnOk result (IsSynced (D.content disk.new) (D.may_leave disk.new)) }
    ensures homes { (c : List ℕ) (images : List PageParts) → D.content disk.old ≡ Some c → StandAt places.now images c
        → ChangesHomes D.Disk (has_image images) disk.old disk.new }
    ensures keeps { KeepsDisk D.Disk disk.old disk.new }
    ensures fault { OnErr result (Rose (D.fault_count disk.old) (D.fault_count disk.new)) }
    ensures calm { OnOk result (D.fault_count disk.new ≡ D.fault_count disk.old) }
{
    send_images(disk, places)?;
    disk.sync()
}

impl Journal {
    /// Writes the last image of each page that a counted record names to the page's home, and syncs:
    /// the first two steps of a checkpoint (FORMATS.md, "Journal"). The images are those that opening
    /// and appending noted, so none of these is left out, whatever the disk reads. After `Failed` the
    /// homes that a counted record names may hold any bytes.
    pub fn send_home<D: Disk>(&self, disk: &mut D) -> Result<(), Failed>
        requires long { store_size self.now.pages ≤ D.size disk.old }
        requires own { IfSome (D.content disk.old) (IsOn self.now) }

        // From `Ok` on each home that a record names holds its last image, also after a crash.
        ensures sent { OnOk result ((c : List ℕ) (records : List RecordParts) → D.content disk.old ≡ Some c → HoldsFor self.now records c
            → IsSomeAnd (D.content disk.new) (AreSentHome records c)) }
        ensures synced { OnOk result (IsSynced (D.content disk.new) (D.may_leave disk.new)) }

        // All other bytes are as before, at every moment and whatever it answers.
        ensures any_moment { (c : List ℕ) (records : List RecordParts) → D.content disk.old ≡ Some c → Only c (D.may_leave disk.old) → HoldsFor self.now records c
            → LeavesOnly D.Disk disk.old disk.new (DiffersInHomes (is_named records) c) }
        ensures elsewhere { (c : List ℕ) (records : List RecordParts) → D.content disk.old ≡ Some c → HoldsFor self.now records c
            → IsSomeAnd (D.content disk.new) (DiffersInHomes (is_named records) c) }

        // So the journal's area still reads the same.
        ensures area { (c : List ℕ) (records : List RecordParts) → D.content disk.old ≡ Some c → HoldsFor self.now records c
            → IsSomeAnd (D.content disk.new) (HoldsFor self.now records) }
        ensures own { IfSome (D.content disk.new) (IsOn self.now) }

        ensures keeps { KeepsDisk D.Disk disk.old disk.new }
        ensures fault { OnErr result (Rose (D.fault_count disk.old) (D.fault_count disk.new)) }
        ensures calm { OnOk result (D.fault_count disk.new ≡ D.fault_count disk.old) }
    {
        send_and_sync(disk, &self.places)
    }
}
