//! The journal of a store.
ghost use Rattle.std.specs.Prelude.{◌≡◌, ◌≤◌, ◌<◌, ◌+◌, ◌↔◌, List, ℕ, Some, None, IfSome, IsSomeAnd, IfOk, OnOk, OnErr, IsErrOf, Err, length, vec_capacity};
ghost use Rattle.disk_trait.specs.Causes.{Rose};
ghost use Rattle.disk_trait.specs.Disk.{Only, IsSynced};
ghost use Rattle.disk_trait.specs.DiskFacts.{LeavesOnly, OnlyReads, KeepsDisk};
ghost use Rattle.redo_journal.specs.Area.{area_start, area_of, read_area};
ghost use Rattle.redo_journal.specs.Homes.{store_size};
ghost use Rattle.redo_journal.specs.Journals.{JournalParts, HoldsFor, IsOn, need_of, left_of, begun, with_staged, appended, IsAppendedOrNot, IsAppended};
ghost use Rattle.redo_journal.specs.Record.{RecordParts, IsRecordOf, grammar, with_image};
ghost use Rattle.redo_journal.specs.Replays.{IsReplay, IsReplayFor};
ghost use Rattle.redo_journal.specs.declared.kind.Kind.TheVariants.{Commit, Sweep};

use crate::area::{read_area, start_of};
use crate::faults::{AppendFault, AreaFault};
use crate::gated::write_record;
use crate::kind::Kind;
use crate::places::{ImagePlace, note};
use crate::replay::Replay;
use crate::scan::{counted, scan};
use crate::sizes::{AREA_SIZE, FRAME_SIZE, IMAGE_SIZE, LONGEST_RECORD};
use disk_trait::Disk;
use object_graph::{MOST_COUNTED, MOST_WRITTEN};
use page_image::Page;
use std::alloc::{AllocError, Global};
use std::marker::Model;

/// The journal of a store: which of the two areas is its own, what that area holds, and the record
/// that is to be appended next. All room is made by `open_area`; no other call takes memory
/// (FORMATS.md, "Journal").
#[derive(Drop)]
pub struct Journal {
    pub(crate) area: u32,
    pub(crate) pages: u32,
    pub(crate) base: u64,
    pub(crate) commits: u64,
    /// Where the first closed gate stands, from the area's beginning.
    pub(crate) end: u64,
    /// Where the counted images stand, oldest first.
    pub(crate) places: Vec<ImagePlace>,
    /// The kind of the staged record, if there is one, and its images.
    pub(crate) kind: Option<Kind>,
    pub(crate) images: Vec<Page>,
    /// Room for the bytes of a record.
    pub(crate) buffer: Vec<u8>,
}

impl Model for Journal {
    ghost use Rattle.std.specs.Prelude.{◌≡◌, ◌≤◌, length, vec_capacity};
    ghost use Rattle.object_graph.specs.declared.limits.TheConstants.{MOST_WRITTEN};
    ghost use Rattle.redo_journal.specs.Journals.{JournalParts, IsJournal, staged_of};
    ghost use Rattle.redo_journal.specs.declared.sizes.TheConstants.{LONGEST_RECORD, MOST_IMAGES};

    ghost Value = { JournalParts };

    ghost view = { λ j. record { area = j.area; pages = j.pages; base = j.base; commits = j.commits; end = j.end; places = j.places.items; staged = staged_of j.kind j.images.items } };

    ghost invariant = { λ j. IsJournal (record { area = j.area; pages = j.pages; base = j.base; commits = j.commits; end = j.end; places = j.places.items; staged = staged_of j.kind j.images.items })
        × (MOST_IMAGES ≤ vec_capacity j.places) × (MOST_WRITTEN ≤ vec_capacity j.images) × (length j.buffer.items ≡ LONGEST_RECORD) };
}

/// Room for a record: its images and its bytes.
fn room(alloc: Global) -> Result<(Vec<Page>, Vec<u8>), AllocError>
    ensures images { IfOk result (λ x. MOST_WRITTEN ≤ vec_capacity x.0) }
    ensures bytes { IfOk result (λ x. length x.1.items ≡ LONGEST_RECORD) }
{
    let images = Vec::with_capacity(alloc, MOST_WRITTEN)?;
    let bytes = vec![in alloc; 0u8; LONGEST_RECORD]?;
    Ok((images, bytes))
}

impl Journal {
    /// Reads an area of a store of so many pages. The answer has the last image of each page that its
    /// records name; its commits are those of the area, without the base.
    pub fn open_area<D: Disk>(
        alloc: Global,
        disk: &mut D,
        area: u32,
        pages: u32,
    ) -> Result<(Journal, Replay), AreaFault>
        requires which { area < 2 }
        requires long { store_size pages ≤ D.size disk.old }

        ensures asked { IfOk result (λ x. (x.0.area ≡ area) × (x.0.pages ≡ pages) × (x.0.staged ≡ None)) }
        ensures replay { IfOk result (λ x. IsReplayFor x.0 x.1) }

        // What it answers is what the disk's area says, or the place of the first wrong field.
        ensures found { IfOk result (λ x. IfSome (D.content disk.old) (λ c. (records : List RecordParts) × HoldsFor x.0 records c × IsReplay records x.1)) }
        ensures bad { (at : ℕ) → result ≡ Err (AreaFault.BadRecord at) → IfSome (D.content disk.old) (λ c. read_area (grammar pages) (area_start area) (area_of area c) ≡ Err at) }

        // A fault is told as one, and never as something else.
        ensures fault { IsErrOf result AreaFault.DiskFault → Rose (D.fault_count disk.old) (D.fault_count disk.new) }
        ensures calm { OnOk result (D.fault_count disk.new ≡ D.fault_count disk.old) }
        ensures calm_bad { (at : ℕ) → result ≡ Err (AreaFault.BadRecord at) → D.fault_count disk.new ≡ D.fault_count disk.old }
        ensures lack { result ≡ Err AreaFault.Memory → D.fault_count disk.new ≡ D.fault_count disk.old }
        ensures later { D.fault_count disk.old ≤ D.fault_count disk.new }

        // The disk stays as it is.
        ensures reads { OnlyReads D.Disk disk.old disk.new }
    {
        let bytes = read_area(alloc, disk, area)?;
        let found = scan(alloc, &bytes, pages, start_of(area))?;
        let Ok((images, buffer)) = room(alloc) else {
            return Err(AreaFault::Memory);
        };
        let journal = Journal {
            area,
            pages,
            base: found.replay.base,
            commits: found.replay.commits,
            end: found.end,
            places: found.places,
            kind: None,
            images,
            buffer,
        };
        Ok((journal, found.replay))
    }

    /// The area for which the journal stands: 0 or 1.
    pub fn area(&self) -> u32
        ensures value { result ≡ self.now.area }
        ensures which { result < 2 }
    {
        self.area
    }

    /// The count of pages of the store.
    pub fn pages(&self) -> u32
        ensures { result ≡ self.now.pages }
    {
        self.pages
    }

    /// The number of commits before the area.
    pub fn base(&self) -> u64
        ensures { result ≡ self.now.base }
    {
        self.base
    }

    /// The number of counted commits of the area, without the base.
    pub fn commits(&self) -> u64
        ensures value { result ≡ self.now.commits }
        ensures bound { self.now.base + self.now.commits ≤ MOST_COUNTED }
    {
        self.commits
    }

    /// Begins an empty record. One that was staged is dropped.
    pub fn stage(&mut self, kind: Kind)
        ensures { self.new ≡ begun kind self.old }
    {
        self.images.clear();
        self.kind = Some(kind);
    }

    /// Adds a page to the staged record, whose pages ascend: at most as many as a transaction may
    /// write, and at most one of a sweep.
    pub fn stage_page(&mut self, image: &Page)
        requires { IsSomeAnd self.old.staged (λ r. IsRecordOf self.old.pages (with_image image.now r)) }
        ensures { self.new ≡ with_staged image.now self.old }
    {
        self.images.push_reserved(*image);
    }

    /// The length of the staged record with its gate in bytes, or 0 where none is staged.
    pub fn need(&self) -> u64
        ensures { result ≡ need_of self.now.staged }
    {
        match self.kind {
            Some(_) => (FRAME_SIZE + IMAGE_SIZE * self.images.len()) as u64,
            None => 0,
        }
    }

    /// The bytes of the area behind its first closed gate.
    pub fn left(&self) -> u64
        ensures { result ≡ left_of self.now }
    {
        AREA_SIZE - (self.end + 1)
    }

    /// Writes the staged record behind the last one, by four calls of the disk: the record with a
    /// closed gate behind it, a sync, the open gate before it, a sync. After `DiskFault` the journal
    /// must be opened again.
    pub fn append<D: Disk>(&mut self, disk: &mut D) -> Result<(), AppendFault>
        requires staged { IsSomeAnd self.old.staged (λ r. r.kind ≡ Sweep → length r.images ≡ 1) }
        requires unspent { IfSome self.old.staged (λ r. r.kind ≡ Commit → self.old.base + self.old.commits < MOST_COUNTED) }
        requires long { store_size self.old.pages ≤ D.size disk.old }
        requires own { IfSome (D.content disk.old) (IsOn self.old) }

        // After a crash at any moment the records are those from before, with the new one or without.
        ensures any_moment { (c : List ℕ) (records : List RecordParts) (new : RecordParts)
            → D.content disk.old ≡ Some c → Only c (D.may_leave disk.old) → HoldsFor self.old records c → self.old.staged ≡ Some new
            → LeavesOnly D.Disk disk.old disk.new (IsAppendedOrNot self.old records new c) }

        // From `Ok` on each crash leaves the new one.
        ensures acknowledged { OnOk result ((c : List ℕ) (records : List RecordParts) (new : RecordParts)
            → D.content disk.old ≡ Some c → HoldsFor self.old records c → self.old.staged ≡ Some new
            → IsSomeAnd (D.content disk.new) (IsAppended self.new records new c)) }
        ensures synced { OnOk result (IsSynced (D.content disk.new) (D.may_leave disk.new)) }
        ensures appended { OnOk result (IfSome self.old.staged (λ r. self.new ≡ appended r self.old)) }
        ensures calm { OnOk result (D.fault_count disk.new ≡ D.fault_count disk.old) }

        // It is refused for want of room exactly where the record is too long, without a call of the disk.
        ensures no_room { (need left : ℕ) → (result ≡ Err (AppendFault.NoRoom need left)) ↔ ((need ≡ need_of self.old.staged) × (left ≡ left_of self.old) × (left < need)) }
        ensures no_call { left_of self.old < need_of self.old.staged → disk.new ≡ disk.old }
        ensures unchanged { OnErr result (self.new ≡ self.old) }

        ensures fault { IsErrOf result AppendFault.DiskFault → Rose (D.fault_count disk.old) (D.fault_count disk.new) }
        ensures keeps { KeepsDisk D.Disk disk.old disk.new }
    {
        let need = self.need();
        let left = self.left();
        if left < need {
            return Err(AppendFault::NoRoom { need, left });
        }
        let Some(kind) = self.kind else {
            unreachable!();
        };
        let gate = start_of(self.area) + self.end;
        write_record(disk, gate, kind, &self.images, &mut self.buffer)?;
        note(&mut self.places, &self.images, gate + FRAME_SIZE as u64);
        self.commits += counted(kind);
        self.end += need;
        self.kind = None;
        Ok(())
    }
}
