//! Sending home over a disk that tells nothing: what it reads needn't be what was written, and each page
//! that a counted record names is written home all the same.
ghost use Rattle.std.specs.Prelude.{None};
ghost use Rattle.disk_trait.specs.NoteLaws.{untold};

use crate::*;
use disk_trait::{Disk, Failed, MemDisk};
use page_image::Page;
use std::alloc::Global;
use std::test::Fail;

/// The bytes of a store of two pages.
const TWO_PAGES: u64 = 527_360;

/// A disk that tells nothing. Once it is blank it reads as zeros. It counts the writes that begin at
/// the homes of pages 0 and 1.
#[derive(Drop)]
struct UntoldDisk {
    bytes: MemDisk,
    is_blank: bool,
    first: u32,
    second: u32,
}

impl Disk for UntoldDisk {
    ghost size = { λ d. ⟦<MemDisk as Disk>⟧.size d.bytes };

    ghost content = { λ _. None };

    ghost may_leave = { λ _ c. Unit {0} };

    ghost moment = { λ _. 0 };

    ghost left_since = { λ _ t c. Unit {0} };

    ghost fault_count = { λ d. ⟦<MemDisk as Disk>⟧.fault_count d.bytes };

    ghost honest = { λ d c is. tt };

    ghost told_whole = { λ d c is. untold c (⟦<MemDisk as Disk>⟧.size d.bytes) is };

    ghost counts_now = { λ d t c le now. tt };

    ghost only_now = { λ d c left. tt };

    fn len(&self) -> u64 {
        self.bytes.len()
    }

    fn faults(&self) -> u64 {
        self.bytes.faults()
    }

    fn read_at(&mut self, at: u64, out: &mut [u8]) -> Result<(), Failed> {
        self.bytes.read_at(at, out)?;
        if self.is_blank {
            out.fill(0);
        }
        Ok(())
    }

    fn write_at(&mut self, at: u64, bytes: &[u8]) -> Result<(), Failed> {
        if at == HOMES_START {
            self.first = self.first.saturating_add(1);
        }
        if at == HOMES_START + 1024 {
            self.second = self.second.saturating_add(1);
        }
        self.bytes.write_at(at, bytes)
    }

    fn sync(&mut self) -> Result<(), Failed> {
        self.bytes.sync()
    }
}

/// Opens area 0 of a store of two pages.
fn opened(alloc: Global, disk: &mut UntoldDisk) -> Result<Journal, Fail> {
    if disk.len() < TWO_PAGES {
        return Err("short")?;
    }
    let Ok((journal, _replay)) = Journal::open_area(alloc, disk, 0, 2) else {
        return Err("open")?;
    };
    Ok(journal)
}

/// Appends a commit of a page.
fn commit(disk: &mut UntoldDisk, journal: &mut Journal, page: u32) -> Result<(), Fail> {
    if disk.len() < TWO_PAGES || journal.pages() != 2 || page > 1 {
        return Err("given")?;
    }
    if journal.base() + journal.commits() >= 1 << 48 {
        return Err("spent")?;
    }
    journal.stage(Kind::Commit);
    journal.stage_page(&Page::empty(page));
    journal.append(disk).map_err(|_| "append")?;
    Ok(())
}

/// Sends home, and how often each home was written since the disk was made.
fn sent(disk: &mut UntoldDisk, journal: &Journal) -> Result<(u32, u32), Fail> {
    if disk.len() < TWO_PAGES || journal.pages() != 2 {
        return Err("given")?;
    }
    journal.send_home(disk)?;
    Ok((disk.first, disk.second))
}

/// Turns over to the other area.
fn turn(disk: &mut UntoldDisk, journal: &mut Journal) -> Result<(), Fail> {
    if disk.len() < TWO_PAGES || journal.pages() != 2 {
        return Err("given")?;
    }
    journal.turn_over(disk, 2)?;
    Ok(())
}

#[test]
fn each_named_page_is_sent_whatever_is_read(rt: HostRuntime) -> Result<(), Fail> {
    let alloc = rt.alloc();
    let mut disk = UntoldDisk {
        bytes: MemDisk::new(alloc, TWO_PAGES, Vec::new(alloc))?,
        is_blank: false,
        first: 0,
        second: 0,
    };
    let mut journal = opened(alloc, &mut disk)?;
    commit(&mut disk, &mut journal, 0)?;
    commit(&mut disk, &mut journal, 1)?;
    let mut journal = opened(alloc, &mut disk)?;
    commit(&mut disk, &mut journal, 0)?;
    disk.is_blank = true;
    assert_eq!(rt;
        sent(&mut disk, &journal)?,
        (1, 1),
        "of the append and of the opening"
    );
    turn(&mut disk, &mut journal)?;
    assert_eq!(rt;
        sent(&mut disk, &journal)?,
        (1, 1),
        "the other area is empty"
    );
    Ok(())
}
