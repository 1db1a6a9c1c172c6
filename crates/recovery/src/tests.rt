//! The limits of making a store, its bytes, each thing that opening finds wrong, and each call of the
//! disk failing in turn, in a checkpoint with a crash behind it. Expected bytes and places are those of
//! the format; the bytes are built by `byteorder`, apart from the code under test.
ghost use Rattle.std.specs.Prelude.{◌≡◌, ◌≤◌, ◌<◌, IfOk, length};
ghost use Rattle.image_model.specs.Stores.{ArePages};

use crate::*;
use byteorder::{BigEndian, ByteOrder};
use disk_trait::{Disk, MemDisk};
use object_graph::{MOST_PAGES, Name};
use page_image::Page;
use redo_journal::{Journal, Kind};
use std::alloc::Global;
use std::process::Abort;
use std::test::Fail;

/// The bytes of a store of two pages.
const TWO_PAGES: u64 = 527_360;

/// What a store was opened with.
#[derive(Clone, Copy, Debug, PartialEq, Eq)]
struct Found {
    pages: usize,
    commits: u64,
    area: u32,
    /// Whether slot 0 of the last page is in use.
    object: bool,
}

fn opened<D: Disk>(alloc: Global, disk: &mut D) -> Result<Found, OpenFault> {
    let store = open_store(alloc, disk)?;
    let last = store.pages.len() - 1;
    Ok(Found {
        pages: store.pages.len(),
        commits: store.commits,
        area: store.journal.area(),
        object: store.pages[last].object(0).is_some(),
    })
}

fn a_disk(alloc: Global, len: u64) -> Result<MemDisk, Fail> {
    Ok(MemDisk::new(alloc, len, Vec::new(alloc))?)
}

fn a_fresh_store(alloc: Global) -> Result<MemDisk, Fail> {
    let mut disk = a_disk(alloc, TWO_PAGES)?;
    make(alloc, &mut disk, 2).map_err(|_| "make")?;
    Ok(disk)
}

/// The bytes of a store of so many pages, and that it is made and opened there but not on one byte less.
fn is_made(alloc: Global, pages: u32, need: u64) -> Result<bool, Fail>
    requires { 0 < need }
{
    let asked = u64::from(pages);
    let mut disk = a_disk(alloc, need)?;
    let made = make(alloc, &mut disk, asked).is_ok();
    let found = Found {
        pages: pages as usize,
        commits: 0,
        area: 0,
        object: pages == 1,
    };
    let fresh = opened(alloc, &mut disk) == Ok(found);
    let len = need - 1;
    let mut short = a_disk(alloc, len)?;
    let refused = make(alloc, &mut short, asked) == Err(MakeFault::TooShort { len, need });
    Ok(made && fresh && refused)
}

#[test]
fn stores_have_1_to_4096_pages(rt: HostRuntime) -> Result<(), Fail> {
    let alloc = rt.alloc();
    let mut disk = a_disk(alloc, 4_719_616)?;
    for pages in [0, 4097, 1 << 63] {
        assert_eq!(rt;
            make(alloc, &mut disk, pages),
            Err(MakeFault::BadPages { pages })
        );
    }
    assert!(rt; is_made(alloc, 1, 526_336)?);
    assert!(rt; is_made(alloc, 2, 527_360)?);
    assert!(rt; is_made(alloc, 16, 541_696)?);
    assert!(rt; is_made(alloc, 4096, 4_719_616)?);
    Ok(())
}

/// Writes what isn't zero of a page's image, whose slot 0 has the root or nothing.
fn build_page(image: &mut [u8], number: u32, root: bool)
    requires { 128 ≤ length image.old }
{
    BigEndian::write_u32(&mut image[0..4], 0x4350_4731);
    BigEndian::write_u32(&mut image[4..8], number);
    BigEndian::write_u16(&mut image[8..10], 0x0414);
    if root {
        BigEndian::write_u32(&mut image[64..68], 0x0100_0001);
    }
}

/// The bytes of a fresh store of two pages, built apart from the code under test.
fn built(alloc: Global) -> Result<Vec<u8>, Fail> {
    let mut bytes = vec![in alloc; 0u8; 527_360]?;
    BigEndian::write_u64(&mut bytes[0..8], 0x4355_5453_544f_5245);
    BigEndian::write_u32(&mut bytes[8..12], 1);
    BigEndian::write_u32(&mut bytes[12..16], 2);
    build_page(&mut bytes[525_312..526_336], 0, true);
    build_page(&mut bytes[526_336..527_360], 1, false);
    Ok(bytes)
}

#[test]
fn a_fresh_store_has_its_bytes(rt: HostRuntime) -> Result<(), Fail> {
    let alloc = rt.alloc();
    let mut disk = a_fresh_store(alloc)?;
    let mut bytes = vec![in alloc; 0u8; 527_360]?;
    if disk.len() == TWO_PAGES {
        disk.read_at(0, &mut bytes)?;
    }
    assert!(rt; bytes == built(alloc)?, "the whole file");
    Ok(())
}

fn put<D: Disk>(disk: &mut D, at: u64, bytes: &[u8]) -> Result<(), Fail> {
    if at < 1 << 32 && bytes.len() < 1 << 32 && at + bytes.len() as u64 <= disk.len() {
        disk.write_at(at, bytes)?;
    }
    Ok(())
}

/// A byte of a fresh store that is changed, and the place that opening answers.
const DAMAGED: [(u64, u8, u64); 8] = [
    // The count of pages.
    (15, 3, 527_360),
    // Area 0: a base above 2^48, and an open gate before a byte that is no kind.
    (1024, 2, 1024),
    (1032, 1, 1033),
    // The home of page 1: its mark, and another page's number.
    (526_338, 0, 526_336),
    (526_343, 0, 526_340),
    (526_400, 2, 526_400),
    // The root: a free slot, and a generation that isn't its own.
    (525_376, 0, 525_376),
    (525_379, 2, 525_376),
];

/// Such a byte, where it is no store then: the mark, the version, the count of pages, and zeros.
const NO_STORE: [(u64, u8); 7] = [
    (0, 0x44),
    (11, 2),
    (15, 0),
    (14, 0x10),
    (16, 1),
    (511, 1),
    (513, 1),
];

#[test]
fn what_is_wrong_is_told_by_its_place(rt: HostRuntime) -> Result<(), Fail> {
    let alloc = rt.alloc();
    for (byte, value, at) in DAMAGED {
        let mut disk = a_fresh_store(alloc)?;
        put(&mut disk, byte, &[value])?;
        assert_eq!(rt;
            opened(alloc, &mut disk),
            Err(OpenFault::Damaged { at }),
            "byte {byte}"
        );
    }
    for (byte, value) in NO_STORE {
        let mut disk = a_fresh_store(alloc)?;
        put(&mut disk, byte, &[value])?;
        assert_eq!(rt;
            opened(alloc, &mut disk),
            Err(OpenFault::NotAStore),
            "byte {byte}"
        );
    }
    let mut short = a_disk(alloc, 1023)?;
    assert_eq!(rt; opened(alloc, &mut short), Err(OpenFault::NotAStore));
    Ok(())
}

#[test]
fn a_file_cut_by_a_byte_is_damaged_there(rt: HostRuntime) -> Result<(), Fail> {
    let alloc = rt.alloc();
    let bytes = built(alloc)?;
    let mut whole = a_disk(alloc, 527_360)?;
    put(&mut whole, 0, &bytes)?;
    assert!(rt; opened(alloc, &mut whole).is_ok());
    let mut cut = a_disk(alloc, 527_359)?;
    if bytes.len() == 527_360 {
        put(&mut cut, 0, &bytes[0..527_359])?;
    }
    assert_eq!(rt;
        opened(alloc, &mut cut),
        Err(OpenFault::Damaged { at: 527_359 })
    );
    Ok(())
}

#[test]
fn a_switch_byte_is_the_area_mod_2(rt: HostRuntime) -> Result<(), Fail> {
    let alloc = rt.alloc();
    let mut disk = a_fresh_store(alloc)?;
    for (byte, area) in [(0, 0), (1, 1), (172, 0), (173, 1), (255, 1)] {
        put(&mut disk, 512, &[byte])?;
        assert_eq!(rt;
            opened(alloc, &mut disk).map(|found| found.area),
            Ok(area),
            "byte {byte}"
        );
    }
    Ok(())
}

/// Appends a commit of page 1 with an object.
fn commit<D: Disk>(alloc: Global, disk: &mut D) -> Result<(), Fail> {
    if disk.len() < TWO_PAGES {
        return Err("short")?;
    }
    let Ok((mut journal, _replay)) = Journal::open_area(alloc, disk, 0, 2) else {
        return Err("open")?;
    };
    if journal.base() + journal.commits() >= 1 << 48 {
        return Err("spent")?;
    }
    let mut page = Page::empty(1);
    page.take_slot().map_err(|_| "slot")?;
    journal.stage(Kind::Commit);
    journal.stage_page(&page);
    journal.append(disk).map_err(|_| "append")?;
    Ok(())
}

#[test]
fn a_record_is_read_in_place_of_its_pages_home(rt: HostRuntime) -> Result<(), Fail> {
    let alloc = rt.alloc();
    let mut disk = a_fresh_store(alloc)?;
    commit(alloc, &mut disk)?;
    put(&mut disk, 526_336, &[0; 1024])?;
    let found = Found {
        pages: 2,
        commits: 1,
        area: 0,
        object: true,
    };
    assert_eq!(rt; opened(alloc, &mut disk), Ok(found));
    put(&mut disk, 1049, &[0])?;
    assert_eq!(rt;
        opened(alloc, &mut disk),
        Err(OpenFault::Damaged { at: 1046 })
    );
    put(&mut disk, 1041, &[2])?;
    assert_eq!(rt;
        opened(alloc, &mut disk),
        Err(OpenFault::Damaged { at: 1038 })
    );
    Ok(())
}

/// Writes a slot with an object of generation 1 and these references.
fn put_object<D: Disk>(disk: &mut D, at: u64, refs: [u64; 4]) -> Result<(), Fail> {
    let mut slot = [0; 48];
    BigEndian::write_u32(&mut slot[0..4], 0x0100_0001);
    BigEndian::write_u64(&mut slot[16..24], refs[0]);
    BigEndian::write_u64(&mut slot[24..32], refs[1]);
    BigEndian::write_u64(&mut slot[32..40], refs[2]);
    BigEndian::write_u64(&mut slot[40..48], refs[3]);
    put(disk, at, &slot)
}

/// The names 0.1.1, 1.0.1 and 1.1.1.
const NEAR: u64 = 0x1_0001;

const FIRST: u64 = 0x1_0000_0001;

const SECOND: u64 = 0x1_0001_0001;

#[test]
fn the_roots_reference_dangles(rt: HostRuntime) -> Result<(), Fail> {
    let alloc = rt.alloc();
    let mut disk = a_fresh_store(alloc)?;
    put_object(&mut disk, 525_376, [FIRST, 0, 0, 0])?;
    assert_eq!(rt;
        opened(alloc, &mut disk),
        Err(OpenFault::Damaged { at: 525_392 })
    );
    Ok(())
}

#[test]
fn the_least_place_of_what_is_reached_is_told(rt: HostRuntime) -> Result<(), Fail> {
    let alloc = rt.alloc();
    let mut disk = a_fresh_store(alloc)?;
    put_object(&mut disk, 526_400, [0, SECOND, NEAR, 0])?;
    assert!(rt; opened(alloc, &mut disk).is_ok(), "it isn't reached");
    put_object(&mut disk, 525_376, [0, FIRST, 0, 0])?;
    assert_eq!(rt;
        opened(alloc, &mut disk),
        Err(OpenFault::Damaged { at: 526_424 }),
        "the second field"
    );
    put_object(&mut disk, 525_424, [0, FIRST, FIRST + 1, SECOND])?;
    assert_eq!(rt;
        opened(alloc, &mut disk),
        Err(OpenFault::Damaged { at: 525_456 }),
        "an earlier page, which is reached later"
    );
    put_object(&mut disk, 526_448, [FIRST, NEAR, 1, SECOND])?;
    assert_eq!(rt;
        opened(alloc, &mut disk),
        Err(OpenFault::Damaged { at: 525_456 }),
        "another generation"
    );
    put_object(&mut disk, 525_424, [0, FIRST, 1, SECOND])?;
    assert!(rt;
        opened(alloc, &mut disk).is_ok(),
        "all that is reached is in use"
    );
    Ok(())
}

/// The first page has the root, each page one object, and each refers to the next page's.
fn chain_on<D: Disk>(disk: &mut D, pages: u32) -> Result<(), Fail> {
    for page in 0..pages {
        let name = u64::from(page + 1) * 0x1_0000_0000 + 1;
        let next = if page + 1 < pages { name } else { 0 };
        put_object(disk, 525_376 + 1024 * u64::from(page), [0, 0, next, 0])?;
    }
    Ok(())
}

#[test]
fn a_chain_over_all_pages_is_followed(rt: HostRuntime) -> Result<(), Fail> {
    let alloc = rt.alloc();
    let mut disk = a_disk(alloc, 4_719_616)?;
    make(alloc, &mut disk, 4096).map_err(|_| "make")?;
    chain_on(&mut disk, 4096)?;
    let found = opened(alloc, &mut disk).map_err(|_| "open")?;
    assert!(rt; found.object);
    put(&mut disk, 4_718_656, &[0; 48])?;
    assert_eq!(rt;
        opened(alloc, &mut disk),
        Err(OpenFault::Damaged { at: 4_717_664 })
    );
    Ok(())
}

/// A fresh store of two pages on a disk of which one call fails.
fn failing(alloc: Global, call: u64) -> Result<MemDisk, Fail> {
    Ok(MemDisk::new(alloc, TWO_PAGES, vec![in alloc; call]?)?)
}

#[test]
fn each_call_that_fails_ends_making(rt: HostRuntime) -> Result<(), Fail> {
    let alloc = rt.alloc();
    let mut ended = 0;
    for call in 1..16 {
        let mut disk = failing(alloc, call)?;
        let answer = make(alloc, &mut disk, 2);
        let fails = disk.calls() >= call;
        assert_eq!(rt;
            answer,
            if fails {
                Err(MakeFault::DiskFault)
            } else {
                Ok(())
            },
            "call {call}"
        );
        assert_eq!(rt; disk.faults(), u64::from(fails));
        ended = if fails { call } else { ended };
    }
    assert!(rt; ended < 15, "without a fault it is made");
    Ok(())
}

#[test]
fn each_call_that_fails_ends_the_opening(rt: HostRuntime) -> Result<(), Fail> {
    let alloc = rt.alloc();
    let made = a_fresh_store(alloc)?.calls();
    let mut ended = 0;
    for more in 1..16 {
        let call = made % 1024 + more;
        let mut disk = failing(alloc, call)?;
        make(alloc, &mut disk, 2).map_err(|_| "make")?;
        let answer = opened(alloc, &mut disk).map(|found| found.pages);
        let fails = disk.calls() >= call;
        assert_eq!(rt;
            answer,
            if fails {
                Err(OpenFault::DiskFault)
            } else {
                Ok(2)
            },
            "call {call}"
        );
        ended = if fails { more } else { ended };
    }
    assert!(rt; ended < 15, "without a fault it is opened");
    Ok(())
}

/// Opens the store and does a checkpoint.
fn is_turned<D: Disk>(alloc: Global, disk: &mut D) -> Result<bool, Fail> {
    let Ok(mut store) = open_store(alloc, disk) else {
        return Err("open")?;
    };
    let done = checkpoint(disk, &mut store.journal, store.commits);
    Ok(done.is_ok())
}

/// The byte at a place.
fn byte_at<D: Disk>(disk: &mut D, at: u64) -> Result<u8, Fail> {
    let mut byte = [0];
    if at < disk.len() {
        disk.read_at(at, &mut byte)?;
    }
    Ok(byte[0])
}

/// A crash as a call of the checkpoint fails: whether it failed, and the switch byte that was left.
fn after_crash(alloc: Global, call: u64, pick: u64) -> Result<(bool, u8), Fail> {
    let mut disk = failing(alloc, call)?;
    make(alloc, &mut disk, 2).map_err(|_| "make")?;
    commit(alloc, &mut disk)?;
    let turned = is_turned(alloc, &mut disk)?;
    if turned == (disk.calls() >= call) {
        return Err("a fault was passed over")?;
    }
    let mut disk = disk.crash(pick)?;
    let found = opened(alloc, &mut disk).map_err(|_| "after the crash")?;
    if found.commits != 1 || !found.object {
        return Err("another store")?;
    }
    Ok((!turned, byte_at(&mut disk, 512)?))
}

#[test]
fn a_crash_in_a_checkpoint_leaves_the_store(rt: HostRuntime) -> Result<(), Fail> {
    let alloc = rt.alloc();
    let mut disk = a_fresh_store(alloc)?;
    commit(alloc, &mut disk)?;
    opened(alloc, &mut disk).map_err(|_| "open")?;
    let before = disk.calls() % 1024;
    let mut ended = 0;
    let mut torn = false;
    for more in 1..16 {
        for pick in 0..3 {
            let (fails, switch) = after_crash(alloc, before + more, pick)?;
            ended = if fails { more } else { ended };
            torn = torn || switch == 173;
        }
    }
    assert!(rt; ended < 15, "without a fault it is done");
    assert!(rt; torn, "a crash left 173 in the switch byte");
    Ok(())
}

#[test]
fn a_checkpoint_makes_the_other_area_active(rt: HostRuntime) -> Result<(), Fail> {
    let alloc = rt.alloc();
    let mut disk = a_fresh_store(alloc)?;
    commit(alloc, &mut disk)?;
    assert!(rt; is_turned(alloc, &mut disk)?);
    let found = Found {
        pages: 2,
        commits: 1,
        area: 1,
        object: true,
    };
    assert_eq!(rt; opened(alloc, &mut disk), Ok(found));
    assert!(rt; is_turned(alloc, &mut disk)?);
    assert_eq!(rt; opened(alloc, &mut disk), Ok(Found { area: 0, ..found }));
    Ok(())
}

/// A page with an object in its first slot, or without.
fn page_with(number: u32, object: bool) -> Page
    requires { number < MOST_PAGES }
    ensures { result.number ≡ number }
{
    let mut page = Page::empty(number);
    if object {
        let _ = page.take_slot();
    }
    page
}

/// Two pages: whether the root is in use, and whether the object is to which it refers.
fn two_pages(alloc: Global, root: bool, object: bool) -> Result<Vec<Page>, Fail>
    ensures { IfOk result (λ pages. ArePages pages.items) }
{
    let mut first = page_with(0, root);
    if first.object(0).is_some() {
        first.set_ref(0, 0, Some(Name::at(1, 0, 1)));
    }
    let mut pages = Vec::new(alloc);
    pages.push(first)?;
    pages.push(page_with(1, object))?;
    Ok(pages)
}

#[test]
fn pages_are_checked(rt: HostRuntime) -> Result<(), Fail> {
    let alloc = rt.alloc();
    let good = two_pages(alloc, true, true)?;
    assert_eq!(rt; check_pages(alloc, &good), Ok(()));
    let dangling = two_pages(alloc, true, false)?;
    assert_eq!(rt;
        check_pages(alloc, &dangling),
        Err(PagesFault::Damaged { at: 525_392 })
    );
    let rootless = two_pages(alloc, false, true)?;
    assert_eq!(rt;
        check_pages(alloc, &rootless),
        Err(PagesFault::Damaged { at: 525_376 })
    );
    Ok(())
}

/// Lays the pages of an opened store on another disk, with the last number of commits.
fn copied<D: Disk, E: Disk>(alloc: Global, from: &mut D, to: &mut E) -> Result<(), LayFault> {
    match open_store(alloc, from) {
        Ok(store) => lay(to, &store.pages, 1 << 48),
        Err(_) => Err(LayFault::DiskFault),
    }
}

#[test]
fn what_is_laid_is_opened(rt: HostRuntime) -> Result<(), Fail> {
    let alloc = rt.alloc();
    let mut disk = a_fresh_store(alloc)?;
    commit(alloc, &mut disk)?;
    let mut other = a_disk(alloc, TWO_PAGES)?;
    assert_eq!(rt; copied(alloc, &mut disk, &mut other), Ok(()));
    let found = Found {
        pages: 2,
        commits: 1 << 48,
        area: 0,
        object: true,
    };
    assert_eq!(rt; opened(alloc, &mut other.crash(0)?), Ok(found));
    let mut short = a_disk(alloc, 527_359)?;
    let len = 527_359;
    let need = 527_360;
    assert_eq!(rt;
        copied(alloc, &mut disk, &mut short),
        Err(LayFault::TooShort { len, need })
    );
    Ok(())
}

#[test]
fn the_super_block_is_read_alone(rt: HostRuntime) -> Result<(), Fail> {
    let alloc = rt.alloc();
    let mut disk = a_fresh_store(alloc)?;
    assert_eq!(rt; read_super(&mut disk), Ok(Super { pages: 2, area: 0 }));
    Ok(())
}
