//! Limits of a store in memory, and each device call of a commit and of a checkpoint failing
//! before a crash.
ghost use Rattle.std.specs.Prelude.{◌≡◌, ◌<◌, true};
ghost use Rattle.cut_core.specs.Calls.{IsBuilt};

use crate::Core;
use disk_trait::{Disk, MemDisk};
use object_graph::{Call, MOST_COUNTED, Memory, Name, ROOT, Refusal, Reply, Steps};
use recovery::make;
use redo_journal::HEAD_SIZE;
use std::alloc::Global;
use std::marker::Brand;
use std::process::Abort;
use std::sync::ledger::{Blank, Ledger};
use std::test::Fail;

/// The bytes of a store of two pages.
const TWO_PAGES: usize = 527_360;

fn begin(txn: u32) -> Call {
    Call::Begin { txn }
}

fn put(txn: u32, name: Name, value: u64) -> Call {
    Call::Put { txn, name, value }
}

fn number(txn: u32, name: Name) -> Call {
    Call::Number { txn, name }
}

fn new(txn: u32, page: u32) -> Call {
    Call::New { txn, page }
}

fn commit(txn: u32) -> Call {
    Call::Commit { txn }
}

fn abort(txn: u32) -> Call {
    Call::Abort { txn }
}

fn made(name: Name) -> Reply {
    Reply::Made { name }
}

fn num(value: u64) -> Reply {
    Reply::Num { value }
}

fn committed(commits: u64) -> Reply {
    Reply::Committed { commits }
}

fn reopened(commits: u64) -> Reply {
    Reply::Reopened { commits }
}

fn refused(why: Refusal) -> Reply {
    Reply::Refused { why }
}

/// The first name of a slot.
fn first_in(page: u32, slot: u16) -> Name {
    if page < 2 && slot < 20 {
        return Name::at(page, slot, 1);
    }
    ROOT
}

fn copy(page: u32) -> Call {
    Call::Copy { page }
}

fn cut(number: u64) -> Reply {
    Reply::Cut { number }
}

/// Whether a call is built.
fn is_built(call: &Call) -> bool
    ensures { result ≡ true → IsBuilt call.now }
{
    match *call {
        Call::Begin { txn: _ } => true,
        Call::Get {
            txn: _,
            name: _,
            field: _,
        } => true,
        Call::Number { txn: _, name: _ } => true,
        Call::Set {
            txn: _,
            name: _,
            field: _,
            target: _,
        } => true,
        Call::Put {
            txn: _,
            name: _,
            value: _,
        } => true,
        Call::New { txn: _, page: _ } => true,
        Call::Commit { txn: _ } => true,
        Call::Abort { txn: _ } => true,
        Call::OpenCut => true,
        Call::Copy { page: _ } => true,
        Call::Sweep { page: _ } => true,
        Call::EndCut => true,
        Call::DropCut => true,
        _ => false,
    }
}

/// One call with a counter of steps of its own.
fn call_once<D: Disk, L: Ledger>(core: &mut Core<D>, call: &Call, blank: Blank) -> Reply
    requires built { IsBuilt call.now }
    requires name { blank.name ≡ L.name }
    requires parts { blank.parts ≡ L.parts }
    requires some { 0 < blank.parts }
{
    let mut steps: Steps<L> = Steps::new(blank);
    core.call(*call, &mut steps)
}

/// The reply to a call. A closed cut is dropped, and what isn't built is answered as if there were
/// no cut.
fn reply_to<D: Disk>(core: &mut Core<D>, call: &Call) -> Reply {
    if *call == Call::Reopen {
        return core.reopen();
    }
    if *call == Call::Close {
        return match core.close_cut() {
            Ok(_) => Reply::Done,
            Err(why) => refused(why),
        };
    }
    if !is_built(call) {
        return refused(Refusal::NoCut);
    }
    call_once::<D, Brand>(core, call, Blank::new(1))
}

/// The first reply that differs from that of a script, with its place.
fn differs<D: Disk>(core: &mut Core<D>, script: &[(Call, Reply)]) -> Option<(usize, Reply)> {
    for at in 0..script.len() {
        let reply = reply_to(core, &script[at].0);
        if reply != script[at].1 {
            return Some((at, reply));
        }
    }
    None
}

/// The store on a disk.
fn again(alloc: Global, disk: MemDisk) -> Result<Core<MemDisk>, Memory> {
    match Core::start(alloc, disk) {
        Ok(core) => Ok(core),
        Err((_, _)) => Err(Memory),
    }
}

/// A fresh store of so many pages, opened, on a disk of which these calls fail.
fn fresh(alloc: Global, pages: u64, fail: Vec<u64>) -> Result<Core<MemDisk>, Memory> {
    let mut disk = MemDisk::new(alloc, 525_312 + 1024 * pages.min(4096), fail)?;
    let Ok(()) = make(alloc, &mut disk, pages) else {
        return Err(Memory);
    };
    again(alloc, disk)
}

/// How many device calls making and opening a store of two pages takes.
fn calls_before(alloc: Global) -> Result<u64, Memory> {
    let core = fresh(alloc, 2, Vec::new(alloc))?;
    Ok(core.into_disk().calls())
}

/// A fresh store of two pages, of which the device call of this number after the opening fails.
fn failing(alloc: Global, number: u64) -> Result<Core<MemDisk>, Memory> {
    let before = calls_before(alloc)?;
    let Ok(fail) = vec![in alloc; before.saturating_add(number)] else {
        return Err(Memory);
    };
    fresh(alloc, 2, fail)
}

#[test]
fn a_page_has_twenty_slots(rt: HostRuntime) -> Result<(), Fail> {
    let mut core = fresh(rt.alloc(), 2, Vec::new(rt.alloc()))?;
    assert_eq!(rt; reply_to(&mut core, &begin(1)), Reply::Done);
    for slot in 0..20 {
        assert_eq!(rt; reply_to(&mut core, &new(1, 1)), made(first_in(1, slot)));
    }
    let script = [
        (new(1, 1), refused(Refusal::PageFull { page: 1 })),
        (commit(1), committed(1)),
        (begin(2), Reply::Done),
        (new(2, 1), refused(Refusal::PageFull { page: 1 })),
        (begin(3), Reply::Done),
        (new(3, 1), refused(Refusal::PageFull { page: 1 })),
    ];
    assert_eq!(rt; differs(&mut core, &script), None);
    Ok(())
}

#[test]
fn sixty_four_transactions_may_be_open(rt: HostRuntime) -> Result<(), Fail> {
    let mut core = fresh(rt.alloc(), 2, Vec::new(rt.alloc()))?;
    for txn in 1..65 {
        assert_eq!(rt; reply_to(&mut core, &begin(txn)), Reply::Done);
    }
    assert_eq!(rt; reply_to(&mut core, &begin(65)), refused(Refusal::TooMany));
    assert_eq!(rt;
        reply_to(&mut core, &begin(64)),
        refused(Refusal::AlreadyOpen)
    );
    Ok(())
}

#[test]
fn a_transaction_writes_sixty_four_pages(rt: HostRuntime) -> Result<(), Fail> {
    let mut core = fresh(rt.alloc(), 66, Vec::new(rt.alloc()))?;
    assert_eq!(rt; reply_to(&mut core, &begin(1)), Reply::Done);
    for page in 1..65 {
        let reply = reply_to(&mut core, &new(1, page));
        assert!(rt; matches!(reply, Reply::Made { name: _ }));
    }
    let script = [
        (new(1, 65), refused(Refusal::TooWide)),
        (put(1, ROOT, 1), refused(Refusal::TooWide)),
        (commit(1), committed(1)),
        (Call::Reopen, reopened(1)),
    ];
    assert_eq!(rt; differs(&mut core, &script), None);
    Ok(())
}

#[test]
fn a_fault_of_the_first_write_breaks_the_store(rt: HostRuntime) -> Result<(), Fail> {
    let mut core = failing(rt.alloc(), 1)?;
    let broken = refused(Refusal::Broken { faults: 1 });
    let script = [
        (begin(1), Reply::Done),
        (put(1, ROOT, 5), Reply::Done),
        (commit(1), refused(Refusal::DiskFault)),
        (begin(2), broken),
    ];
    assert_eq!(rt; differs(&mut core, &script), None);
    assert_eq!(rt; core.broken(), Some(1));
    let script = [
        (Call::Reopen, reopened(0)),
        (begin(2), Reply::Done),
        (number(2, ROOT), num(0)),
    ];
    assert_eq!(rt; differs(&mut core, &script), None);
    assert_eq!(rt; core.broken(), None);
    assert_eq!(rt; core.last_cut(), 0);
    Ok(())
}

#[test]
fn a_spent_count_refuses_commits_alone(rt: HostRuntime) -> Result<(), Fail> {
    let mut disk = fresh(rt.alloc(), 1, Vec::new(rt.alloc()))?.into_disk();
    // The first area of the journal begins with its base.
    disk.write_at(HEAD_SIZE, &MOST_COUNTED.to_be_bytes())?;
    let mut core = again(rt.alloc(), disk)?;
    let spent = Refusal::Spent {
        count: MOST_COUNTED,
    };
    let script = [
        (begin(1), Reply::Done),
        (commit(1), refused(spent)),
        (Call::OpenCut, cut(1)),
    ];
    assert_eq!(rt; differs(&mut core, &script), None);
    Ok(())
}

#[test]
fn a_commit_in_doubt_may_be_found_done(rt: HostRuntime) -> Result<(), Fail> {
    let mut core = failing(rt.alloc(), 4)?;
    let script = [
        (begin(1), Reply::Done),
        (put(1, ROOT, 5), Reply::Done),
        (commit(1), refused(Refusal::DiskFault)),
        (Call::Reopen, reopened(1)),
        (begin(2), Reply::Done),
        (number(2, ROOT), num(5)),
    ];
    assert_eq!(rt; differs(&mut core, &script), None);
    Ok(())
}

// ---- crashes

/// One-page commits, of which each puts its own number into the root.
fn commits<D: Disk>(core: &mut Core<D>, first: u64, last: u64) -> Option<Reply> {
    for number in first..=last {
        let script = [(begin(1), Reply::Done), (put(1, ROOT, number), Reply::Done)];
        if let Some((_, reply)) = differs(core, &script) {
            return Some(reply);
        }
        let reply = reply_to(core, &commit(1));
        if reply != committed(number) {
            return Some(reply);
        }
    }
    None
}

/// The bytes of a store of two pages with so many commits.
fn image_of(alloc: Global, count: u64) -> Result<Vec<u8>, Fail> {
    let mut core = fresh(alloc, 2, Vec::new(alloc))?;
    if count > 0 && commits(&mut core, 1, count).is_some() {
        return Err(Fail::from("a commit was refused"));
    }
    let mut disk = core.into_disk();
    let mut image = vec![in alloc; 0u8; TWO_PAGES]?;
    if disk.len() as usize == image.len() {
        disk.read_at(0, &mut image)?;
    }
    Ok(image)
}

/// A disk that holds such bytes, of which these calls fail.
fn holding(alloc: Global, image: &[u8], fail: Vec<u64>) -> Result<MemDisk, Fail> {
    let mut disk = MemDisk::new(alloc, TWO_PAGES as u64, fail)?;
    if disk.len() as usize == image.len() {
        disk.write_at(0, image)?;
    }
    disk.sync()?;
    Ok(disk)
}

/// The commits of a store that was opened after a crash, where its root has their number.
fn found(alloc: Global, disk: MemDisk) -> Result<Option<u64>, Memory> {
    let mut core = again(alloc, disk)?;
    let count = core.commits();
    let script = [(begin(1), Reply::Done), (number(1, ROOT), num(count))];
    match differs(&mut core, &script) {
        Some(_) => Ok(None),
        None => Ok(Some(count)),
    }
}

/// How many device calls the commit behind so many makes, and how many there were before it.
fn calls_of(alloc: Global, image: &[u8], count: u64) -> Result<(u64, u64), Fail>
    requires { count < 1000 }
{
    let opened = again(alloc, holding(alloc, image, Vec::new(alloc))?)?;
    let before = opened.into_disk().calls();
    let mut core = again(alloc, holding(alloc, image, Vec::new(alloc))?)?;
    if commits(&mut core, count + 1, count + 1).is_some() {
        return Err(Fail::from("a commit was refused"));
    }
    let calls = core.into_disk().calls().saturating_sub(before);
    Ok((before, calls))
}

/// The last device calls of the commit behind so many fail in turn, and each crash after one leaves
/// these commits or one more, with their graph. It answers how many calls the commit makes.
fn check_crashes<R: Abort>(rt: &R, alloc: Global, count: u64) -> Result<u64, Fail>
    requires { count < 1000 }
{
    let image = image_of(alloc, count)?;
    let (before, calls) = calls_of(alloc, &image, count)?;
    for last in 0..calls.min(12) {
        for pick in 0..4 {
            let fail = vec![in alloc; before.saturating_add(calls.saturating_sub(last))]?;
            let mut core = again(alloc, holding(alloc, &image, fail)?)?;
            let refusal = commits(&mut core, count + 1, count + 1);
            assert_eq!(rt; refusal, Some(refused(Refusal::DiskFault)));
            let disk = core.into_disk().crash(pick)?;
            let left = found(alloc, disk)?;
            assert!(rt;
                left == Some(count) || left == Some(count + 1),
                "call {last} from the last, pick {pick}"
            );
        }
    }
    Ok(calls)
}

#[test]
fn a_crash_leaves_a_commit_or_none(rt: HostRuntime) -> Result<(), Fail> {
    assert_eq!(rt; check_crashes(&rt, rt.alloc(), 1)?, 4);
    Ok(())
}

#[test]
fn the_254th_commit_makes_a_checkpoint(rt: HostRuntime) -> Result<(), Fail> {
    let calls = check_crashes(&rt, rt.alloc(), 253)?;
    assert!(rt; calls > 4);
    Ok(())
}

/// The images that a page has in the cut that a core closes: the current one, the one before, the
/// one after.
fn images<D: Disk>(core: &mut Core<D>, page: u32) -> Option<(bool, bool, bool)> {
    let closed = match core.close_cut() {
        Ok(closed) => closed,
        Err(_) => return None,
    };
    if page >= closed.pages() {
        return None;
    }
    Some((
        closed.image(page, 0).is_some(),
        closed.image(page, 1).is_some(),
        closed.image(page, 2).is_some(),
    ))
}

#[test]
fn a_page_written_after_its_copy_has_an_after_image(rt: HostRuntime) -> Result<(), Fail> {
    let mut core = fresh(rt.alloc(), 2, Vec::new(rt.alloc()))?;
    let script = [
        (Call::OpenCut, cut(1)),
        (copy(0), Reply::Done),
        (begin(1), Reply::Done),
        (put(1, ROOT, 5), Reply::Done),
        (commit(1), committed(1)),
        (copy(1), Reply::Done),
    ];
    assert_eq!(rt; differs(&mut core, &script), None);
    assert_eq!(rt; images(&mut core, 0), Some((true, false, true)));
    assert_eq!(rt; core.may_mark(), Ok(1));
    Ok(())
}

#[test]
fn a_copy_of_a_written_page_has_the_committed_image(rt: HostRuntime) -> Result<(), Fail> {
    let mut core = fresh(rt.alloc(), 2, Vec::new(rt.alloc()))?;
    let script = [
        (Call::OpenCut, cut(1)),
        (begin(1), Reply::Done),
        (put(1, ROOT, 5), Reply::Done),
        (copy(0), Reply::Done),
        (abort(1), Reply::Done),
        (copy(1), Reply::Done),
    ];
    assert_eq!(rt; differs(&mut core, &script), None);
    assert_eq!(rt; images(&mut core, 0), Some((true, true, false)));
    Ok(())
}

// ---- the pages touched

/// The first pages touched of a store of two.
type Pages = [Option<u32>; 2];

const NONE: Pages = [None, None];

const BOTH: Pages = [Some(0), Some(1)];

fn one(page: u32) -> Pages {
    [Some(page), None]
}

/// The first reply of a script that differs, or pages touched, with their place.
fn touches_otherwise<D: Disk>(
    core: &mut Core<D>,
    script: &[(Call, Reply, Pages)],
) -> Option<(usize, Reply, Pages)> {
    for at in 0..script.len() {
        let reply = reply_to(core, &script[at].0);
        let pages = [core.touched(0), core.touched(1)];
        if reply != script[at].1 || pages != script[at].2 || core.touched(2).is_some() {
            return Some((at, reply, pages));
        }
    }
    None
}

#[test]
fn the_pages_touched_are_those_of_the_last_call(rt: HostRuntime) -> Result<(), Fail> {
    let mut core = fresh(rt.alloc(), 2, Vec::new(rt.alloc()))?;
    let first = first_in(1, 0);
    let script = [
        (begin(1), Reply::Done, NONE),
        (put(1, ROOT, 5), Reply::Done, one(0)),
        (new(1, 1), made(first), one(1)),
        (put(2, ROOT, 6), refused(Refusal::NotOpen), NONE),
        (put(1, first, 7), Reply::Done, one(1)),
        (number(1, ROOT), num(5), NONE),
        (commit(1), committed(1), BOTH),
        (begin(2), Reply::Done, NONE),
        (new(2, 1), made(first_in(1, 1)), one(1)),
        (Call::OpenCut, cut(1), NONE),
        (copy(0), Reply::Done, NONE),
        (abort(2), Reply::Done, one(1)),
        (abort(2), refused(Refusal::NotOpen), NONE),
        (copy(1), Reply::Done, NONE),
        (Call::Close, Reply::Done, NONE),
        (Call::Reopen, reopened(1), BOTH),
        (Call::DropCut, refused(Refusal::NoCut), NONE),
    ];
    assert_eq!(rt; touches_otherwise(&mut core, &script), None);
    Ok(())
}

#[test]
fn a_commit_in_doubt_touches_nothing(rt: HostRuntime) -> Result<(), Fail> {
    let mut core = failing(rt.alloc(), 1)?;
    let script = [
        (begin(1), Reply::Done, NONE),
        (put(1, ROOT, 5), Reply::Done, one(0)),
        (commit(1), refused(Refusal::DiskFault), NONE),
    ];
    assert_eq!(rt; touches_otherwise(&mut core, &script), None);
    Ok(())
}
