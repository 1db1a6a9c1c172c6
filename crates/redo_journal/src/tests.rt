//! The worked examples of the journal, an area spoiled byte by byte, and each call of the disk failing
//! before a crash. The areas that are read are written by `byteorder`, apart from the code under test.
ghost use Rattle.std.specs.Prelude.{◌<◌, ◌^◌};

use crate::*;
use byteorder::{BigEndian, ByteOrder};
use disk_trait::{Disk, Failed, MemDisk};
use page_image::Page;
use std::alloc::Global;
use std::process::Abort;
use std::test::Fail;

/// The bytes of a store of two pages.
const TWO_PAGES: u64 = 527_360;

/// What an area holds, or the place of the first wrong field.
#[derive(Clone, Copy, Debug, PartialEq, Eq)]
struct Found {
    base: u64,
    commits: u64,
    images: usize,
    left: u64,
}

/// Opens area 0 of a store of two pages.
fn opened<D: Disk>(alloc: Global, disk: &mut D) -> Result<Found, AreaFault> {
    if disk.len() < TWO_PAGES {
        return Err(AreaFault::DiskFault);
    }
    let (journal, replay) = Journal::open_area(alloc, disk, 0, 2)?;
    Ok(Found {
        base: replay.base,
        commits: replay.commits,
        images: replay.images.len(),
        left: journal.left(),
    })
}

/// What a commit of page 1 needed, what it answered, and what was left then.
#[derive(Clone, Copy, Debug, PartialEq, Eq)]
struct Done {
    need: u64,
    answer: Result<(), AppendFault>,
    left: u64,
}

/// Opens area 0 of a store of two pages and appends a commit of page 1.
fn commit<D: Disk>(alloc: Global, disk: &mut D) -> Result<Done, AreaFault> {
    if disk.len() < TWO_PAGES {
        return Err(AreaFault::DiskFault);
    }
    let (mut journal, _replay) = Journal::open_area(alloc, disk, 0, 2)?;
    if journal.base() + journal.commits() >= 1 << 48 {
        return Err(AreaFault::Memory);
    }
    journal.stage(Kind::Commit);
    journal.stage_page(&Page::empty(1));
    let need = journal.need();
    let answer = journal.append(disk);
    Ok(Done {
        need,
        answer,
        left: journal.left(),
    })
}

#[test]
fn a_fresh_area_is_empty(rt: HostRuntime) -> Result<(), Fail> {
    let alloc = rt.alloc();
    let mut disk = MemDisk::new(alloc, TWO_PAGES, Vec::new(alloc))?;
    let want = Found {
        base: 0,
        commits: 0,
        images: 0,
        left: 262_135,
    };
    assert_eq!(rt; opened(alloc, &mut disk), Ok(want));
    Ok(())
}

#[test]
fn an_appended_commit_is_found(rt: HostRuntime) -> Result<(), Fail> {
    let alloc = rt.alloc();
    let mut disk = MemDisk::new(alloc, TWO_PAGES, Vec::new(alloc))?;
    let done = Done {
        need: 1034,
        answer: Ok(()),
        left: 261_101,
    };
    assert_eq!(rt; commit(alloc, &mut disk), Ok(done));
    let want = Found {
        base: 0,
        commits: 1,
        images: 1,
        left: 261_101,
    };
    assert_eq!(rt; opened(alloc, &mut disk), Ok(want));
    Ok(())
}

#[test]
fn an_area_is_full_after_253_commits_of_a_page(rt: HostRuntime) -> Result<(), Fail> {
    let alloc = rt.alloc();
    let mut disk = MemDisk::new(alloc, TWO_PAGES, Vec::new(alloc))?;
    for i in 1..254 {
        let done = Done {
            need: 1034,
            answer: Ok(()),
            left: 262_135 - 1034 * i,
        };
        assert_eq!(rt; commit(alloc, &mut disk), Ok(done));
    }
    let full = Done {
        need: 1034,
        answer: Err(AppendFault::NoRoom {
            need: 1034,
            left: 533,
        }),
        left: 533,
    };
    assert_eq!(rt; commit(alloc, &mut disk), Ok(full));
    Ok(())
}

/// Writes bytes at a place.
fn put<D: Disk>(disk: &mut D, at: u64, bytes: &[u8]) -> Result<(), Failed> {
    let len = disk.len();
    if at > len || bytes.len() as u64 > len - at {
        return Err(Failed);
    }
    disk.write_at(at, bytes)
}

/// Writes what isn't zero of a page without objects in a record: its number and its image's header.
fn put_page<D: Disk>(disk: &mut D, at: u64, page: u32) -> Result<(), Failed>
    requires { at < 2 ^ 32 }
{
    let mut number = [0; 4];
    BigEndian::write_u32(&mut number, page);
    put(disk, at, &number)?;
    put(disk, at + 4, b"CPG1")?;
    put(disk, at + 8, &number)?;
    put(disk, at + 12, &[4, 20])
}

/// Writes an open gate and a commit of pages 0 and 1 into area 0.
fn put_commit<D: Disk>(disk: &mut D) -> Result<(), Failed> {
    let mut count = [0; 4];
    BigEndian::write_u32(&mut count, 2);
    put(disk, 1032, &[1, 1])?;
    put(disk, 1034, &count)?;
    put_page(disk, 1038, 0)?;
    put_page(disk, 2066, 1)
}

/// A byte of that area, what is put there, and where the first wrong field then begins, or 0.
const SPOILED: [(u64, u8, u64); 20] = [
    // The base: above 2^48; 2^48, behind which no commit counts.
    (1024, 2, 1024),
    (1025, 1, 1033),
    // The gate: closed by any byte but 1.
    (1032, 0, 0),
    (1032, 2, 0),
    // The kind, and the count of a sweep.
    (1033, 0, 1033),
    (1033, 3, 1033),
    (1033, 2, 1034),
    // The count: too large, past the area's end, and one page more than there is.
    (1037, 65, 1034),
    (1034, 1, 1034),
    (1037, 3, 3094),
    // The number of the first page: not below 2; another than the image's.
    (1041, 2, 1038),
    (1041, 1, 1046),
    // Its image: mark, number, references, the last slot.
    (1042, 0, 1042),
    (1048, 16, 1046),
    (1049, 1, 1046),
    (1050, 5, 1050),
    (2065, 1, 2058),
    // The number of the second page, not above the first; its image.
    (2069, 0, 2066),
    (2070, 0, 2070),
    // The next gate, behind which there is no kind.
    (3094, 1, 3095),
];

#[test]
fn each_field_that_is_spoiled_is_told(rt: HostRuntime) -> Result<(), Fail> {
    let alloc = rt.alloc();
    for (at, byte, first) in SPOILED.iter() {
        let mut disk = MemDisk::new(alloc, TWO_PAGES, Vec::new(alloc))?;
        put_commit(&mut disk).map_err(|_| "commit")?;
        put(&mut disk, *at, &[*byte]).map_err(|_| "spoil")?;
        let wrong = match opened(alloc, &mut disk) {
            Ok(_) => 0,
            Err(AreaFault::BadRecord { at }) => at,
            Err(_) => 1,
        };
        assert_eq!(rt; wrong, *first, "byte {at}");
    }
    Ok(())
}

/// What an append answers whose disk fails at a call, counted from the opening's read, and how many
/// commits are found after each crash.
struct Crashed {
    fails: u64,
    is_ok: bool,
    commits: [u64; 6],
}

const CRASHED: [Crashed; 5] = [
    Crashed {
        fails: 2,
        is_ok: false,
        commits: [0; 6],
    },
    Crashed {
        fails: 3,
        is_ok: false,
        commits: [0; 6],
    },
    Crashed {
        fails: 4,
        is_ok: false,
        commits: [0; 6],
    },
    Crashed {
        fails: 5,
        is_ok: false,
        commits: [0, 1, 0, 1, 1, 1],
    },
    Crashed {
        fails: 6,
        is_ok: true,
        commits: [1; 6],
    },
];

#[test]
fn a_crash_finds_the_commit_or_not(rt: HostRuntime) -> Result<(), Fail> {
    let alloc = rt.alloc();
    for crashed in CRASHED.iter() {
        for (pick, commits) in crashed.commits.iter().enumerate() {
            let mut disk = MemDisk::new(alloc, TWO_PAGES, vec![in alloc; crashed.fails]?)?;
            let done = commit(alloc, &mut disk).map_err(|_| "open")?;
            let want = if crashed.is_ok {
                Ok(())
            } else {
                Err(AppendFault::DiskFault)
            };
            assert_eq!(rt; done.answer, want, "call {}", crashed.fails);
            let after = opened(alloc, &mut disk.crash(pick as u64)?).map_err(|_| "reopen")?;
            assert_eq!(rt;
                after.commits,
                *commits,
                "call {} pick {pick}",
                crashed.fails
            );
        }
    }
    Ok(())
}
