//! Sending home and turning over: each call of the disk failing before a crash, and a journal that goes
//! on in its other area.

use crate::*;
use disk_trait::{Disk, MemDisk};
use page_image::Page;
use std::alloc::Global;
use std::process::Abort;
use std::test::Fail;

/// The bytes of a store of two pages, and where the homes begin in it.
const TWO_PAGES: u64 = 527_360;

/// What a home holds: zeros, as nothing was written there, its page without or with an object, or
/// other bytes.
#[derive(Clone, Copy, Debug, PartialEq, Eq)]
enum Home {
    Zeros,
    Empty,
    Object,
    Torn,
}

use Home::{Empty, Object, Torn, Zeros};

fn home_at<D: Disk>(disk: &mut D, page: u64) -> Result<Home, Fail> {
    let mut image = [0; 1024];
    if disk.len() >= TWO_PAGES && page < 2 {
        disk.read_at(HOMES_START + 1024 * page, &mut image)?;
    }
    match Page::decode(&image) {
        Ok(page) if page.object(0).is_some() => Ok(Object),
        Ok(_) => Ok(Empty),
        Err(_) if image[0] == 0 => Ok(Zeros),
        Err(_) => Ok(Torn),
    }
}

/// The homes of pages 0 and 1.
fn homes<D: Disk>(disk: &mut D) -> Result<(Home, Home), Fail> {
    Ok((home_at(disk, 0)?, home_at(disk, 1)?))
}

/// Opens an area of a store of two pages.
fn opened<D: Disk>(alloc: Global, disk: &mut D, area: u32) -> Result<(u64, u64), AreaFault> {
    if disk.len() < TWO_PAGES || area > 1 {
        return Err(AreaFault::DiskFault);
    }
    let (_journal, replay) = Journal::open_area(alloc, disk, area, 2)?;
    Ok((replay.base, replay.commits))
}

/// Appends a commit of page 1 to an area: five calls of the disk.
fn commit<D: Disk>(alloc: Global, disk: &mut D, area: u32, image: &Page) -> Result<(), Fail> {
    if disk.len() < TWO_PAGES || area > 1 || image.number() != 1 {
        return Err("given")?;
    }
    let Ok((mut journal, _replay)) = Journal::open_area(alloc, disk, area, 2) else {
        return Err("open")?;
    };
    if journal.base() + journal.commits() >= 1 << 48 {
        return Err("spent")?;
    }
    journal.stage(Kind::Commit);
    journal.stage_page(image);
    journal.append(disk).map_err(|_| "append")?;
    Ok(())
}

/// Appends a commit of pages 0 and 1 to area 0, which have no objects: five calls.
fn commit_both<D: Disk>(alloc: Global, disk: &mut D) -> Result<(), Fail> {
    if disk.len() < TWO_PAGES {
        return Err("short")?;
    }
    let Ok((mut journal, _replay)) = Journal::open_area(alloc, disk, 0, 2) else {
        return Err("open")?;
    };
    if journal.base() + journal.commits() >= 1 << 48 {
        return Err("spent")?;
    }
    journal.stage(Kind::Commit);
    journal.stage_page(&Page::empty(0));
    journal.stage_page(&Page::empty(1));
    journal.append(disk).map_err(|_| "append")?;
    Ok(())
}

/// Appends a commit of pages 0 and 1 without objects, and one of page 1 with an object: ten calls.
fn two_commits<D: Disk>(alloc: Global, disk: &mut D) -> Result<(), Fail> {
    commit_both(alloc, disk)?;
    let mut page = Page::empty(1);
    page.take_slot().map_err(|_| "slot")?;
    commit(alloc, disk, 0, &page)
}

/// Opens area 0 and sends its images home.
fn is_sent<D: Disk>(alloc: Global, disk: &mut D) -> Result<bool, Fail> {
    if disk.len() < TWO_PAGES {
        return Err("short")?;
    }
    let Ok((journal, _replay)) = Journal::open_area(alloc, disk, 0, 2) else {
        return Err("open")?;
    };
    Ok(journal.send_home(disk).is_ok())
}

/// Calls of which one fails, and what each crash then leaves in the homes.
struct Sent {
    first: u64,
    last: u64,
    left: [(Home, Home); 6],
}

/// Call 11 opens the area. Then the last image of each page is read and written: 12 and 13 for page 0
/// of the first record, 14 and 15 for page 1 of the second. Call 16 is the sync.
const SENT: [Sent; 4] = [
    Sent {
        first: 12,
        last: 13,
        left: [(Zeros, Zeros); 6],
    },
    Sent {
        first: 14,
        last: 15,
        left: [
            (Zeros, Zeros),
            (Empty, Zeros),
            (Torn, Zeros),
            (Empty, Zeros),
            (Empty, Zeros),
            (Empty, Zeros),
        ],
    },
    Sent {
        first: 16,
        last: 16,
        left: [
            (Zeros, Zeros),
            (Empty, Object),
            (Torn, Torn),
            (Empty, Zeros),
            (Empty, Object),
            (Empty, Torn),
        ],
    },
    Sent {
        first: 17,
        last: 17,
        left: [(Empty, Object); 6],
    },
];

/// A run whose disk fails at this call, and a crash after it.
fn crash_after_sending(
    rt: &(impl AllocGlobal + Abort),
    call: u64,
    pick: u64,
) -> Result<(Home, Home), Fail> {
    let alloc = rt.alloc();
    let mut disk = MemDisk::new(alloc, TWO_PAGES, vec![in alloc; call]?)?;
    two_commits(alloc, &mut disk)?;
    assert_eq!(rt; is_sent(alloc, &mut disk)?, call == 17, "call {call}");
    let mut disk = disk.crash(pick)?;
    assert_eq!(rt;
        opened(alloc, &mut disk, 0),
        Ok((0, 2)),
        "call {call} pick {pick}"
    );
    homes(&mut disk)
}

#[test]
fn a_crash_in_sending_home_leaves_the_area(rt: HostRuntime) -> Result<(), Fail> {
    for sent in SENT.iter() {
        for call in sent.first..sent.last + 1 {
            for (pick, left) in sent.left.iter().enumerate() {
                let found = crash_after_sending(&rt, call, pick as u64)?;
                assert_eq!(rt; found, *left, "call {call} pick {pick}");
            }
        }
    }
    Ok(())
}

/// Opens area 0 and turns over to area 1, with the commits that are counted.
fn is_turned<D: Disk>(alloc: Global, disk: &mut D) -> Result<bool, Fail> {
    if disk.len() < TWO_PAGES {
        return Err("short")?;
    }
    let Ok((mut journal, _replay)) = Journal::open_area(alloc, disk, 0, 2) else {
        return Err("open")?;
    };
    let commits = journal.base() + journal.commits();
    Ok(journal.turn_over(disk, commits).is_ok())
}

/// A call that fails, and what the other area then says after each crash: its base and its commits.
struct Turned {
    fails: u64,
    left: [Result<(u64, u64), AreaFault>; 6],
}

/// Both areas have one commit. Call 12 writes the base and the gate, and call 13 is the sync.
const TURNED: [Turned; 3] = [
    Turned {
        fails: 12,
        left: [Ok((0, 1)); 6],
    },
    Turned {
        fails: 13,
        left: [
            Ok((0, 1)),
            Ok((1, 0)),
            Err(AreaFault::BadRecord { at: 263_168 }),
            Ok((1, 0)),
            Ok((1, 0)),
            Ok((1, 0)),
        ],
    },
    Turned {
        fails: 14,
        left: [Ok((1, 0)); 6],
    },
];

#[test]
fn a_crash_in_turning_over_leaves_the_area(rt: HostRuntime) -> Result<(), Fail> {
    let alloc = rt.alloc();
    for turned in TURNED.iter() {
        for (pick, left) in turned.left.iter().enumerate() {
            let mut disk = MemDisk::new(alloc, TWO_PAGES, vec![in alloc; turned.fails]?)?;
            commit(alloc, &mut disk, 1, &Page::empty(1))?;
            commit(alloc, &mut disk, 0, &Page::empty(1))?;
            assert_eq!(rt; is_turned(alloc, &mut disk)?, turned.fails == 14);
            let mut disk = disk.crash(pick as u64)?;
            assert_eq!(rt;
                opened(alloc, &mut disk, 0),
                Ok((0, 1)),
                "call {} pick {pick}",
                turned.fails
            );
            assert_eq!(rt;
                opened(alloc, &mut disk, 1),
                *left,
                "call {} pick {pick}",
                turned.fails
            );
        }
    }
    Ok(())
}

/// Sends home and turns over while a commit of page 0 is staged, and appends that to the other area.
fn goes_on<D: Disk>(alloc: Global, disk: &mut D) -> Result<(u32, u64, u64), Fail> {
    if disk.len() < TWO_PAGES {
        return Err("short")?;
    }
    let Ok((mut journal, _replay)) = Journal::open_area(alloc, disk, 0, 2) else {
        return Err("open")?;
    };
    journal.stage(Kind::Commit);
    journal.stage_page(&Page::empty(0));
    journal.send_home(disk).map_err(|_| "send")?;
    journal.turn_over(disk, 2).map_err(|_| "turn")?;
    let before = (journal.area(), journal.need(), journal.left());
    journal.append(disk).map_err(|_| "append")?;
    Ok(before)
}

#[test]
fn a_journal_goes_on_in_the_other_area(rt: HostRuntime) -> Result<(), Fail> {
    let alloc = rt.alloc();
    let mut disk = MemDisk::new(alloc, TWO_PAGES, Vec::new(alloc))?;
    two_commits(alloc, &mut disk)?;
    assert_eq!(rt; goes_on(alloc, &mut disk)?, (1, 1034, 262_135));
    assert_eq!(rt; homes(&mut disk)?, (Empty, Object));
    assert_eq!(rt; opened(alloc, &mut disk, 0), Ok((0, 2)));
    assert_eq!(rt; opened(alloc, &mut disk, 1), Ok((2, 1)));
    Ok(())
}
