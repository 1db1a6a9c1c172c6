//! A state and a desk over a small store in memory.
ghost use Rattle.std.specs.Prelude.{◌≡◌, ◌<◌, IfOk};
ghost use Rattle.turn_lock.specs.Seats.{all_parts};
ghost use Rattle.store_desk.specs.Appended.{IsTaken};

use crate::{Desk, DeskGuard, DeskSeat, DeskState, Note, call_in_turn};
use cut_core::Core;
use disk_trait::MemDisk;
use object_graph::{Call, Entry, Memory, Phase, Refusal, Reply, Steps};
use recovery::make;
use std::alloc::Global;
use std::marker::Brand;
use std::process::Abort;
use std::sync::Wait;
use std::sync::ledger::{Blank, Ledger};
use std::test::Fail;

/// The bytes of a store of two pages.
const TWO_PAGES: u64 = 527_360;

/// A core over a fresh store of two pages.
fn fresh(alloc: Global) -> Result<Core<MemDisk>, Memory> {
    let mut disk = MemDisk::new(alloc, TWO_PAGES, Vec::new(alloc))?;
    let Ok(()) = make(alloc, &mut disk, 2) else {
        return Err(Memory);
    };
    match Core::start(alloc, disk) {
        Ok(core) => Ok(core),
        Err((_, _)) => Err(Memory),
    }
}

/// A desk over such a store, with the first seat.
fn fresh_desk(alloc: Global) -> Result<(Desk<MemDisk>, DeskSeat<MemDisk>), Memory>
    ensures own { IfOk result (λ d. d.1.turn ≡ d.0.turn) }
    ensures parts { IfOk result (λ d. d.1.parts ≡ all_parts) }
{
    let core = fresh(alloc)?;
    match Desk::new(alloc, core) {
        Ok(made) => Ok(made),
        Err((_core, memory)) => Err(memory),
    }
}

/// A state finds no room, makes some, and appends an entry.
fn fill_a_state<R: Abort, L: Ledger>(rt: &R, alloc: Global, blank: Blank) -> Result<(), Fail>
    requires name { blank.name ≡ L.name }
    requires parts { blank.parts ≡ L.parts }
    requires some { 0 < blank.parts }
{
    let mut steps: Steps<L> = Steps::new(blank);
    let Ok(mut state) = DeskState::new(alloc, fresh(alloc)?) else {
        panic!(rt; "no memory")
    };
    let none = state.call(rt, 1, Call::Begin { txn: 1 }, &mut steps);
    assert!(rt; none.is_err());
    state.reserve(rt, 10)?;
    let first = state.call(rt, 1, Call::Begin { txn: 1 }, &mut steps);
    assert_eq!(rt; first, Ok((Reply::Done, 0)));
    Ok(())
}

#[test]
fn a_state_takes_calls_where_there_is_room(rt: HostRuntime) -> Result<(), Fail> {
    fill_a_state::<HostRuntime, Brand>(&rt, rt.alloc(), Blank::new(1))
}

/// The reply to a call of a lane, and its place; none, where there is no room.
fn answer<W: Wait>(
    rt: &W,
    desk: &Desk<MemDisk>,
    seat: &mut DeskSeat<MemDisk>,
    lane: u32,
    call: Call,
) -> Option<(Reply, u64)>
    requires own { seat.old.turn ≡ desk.now.turn }
    requires taken { IsTaken call }
    ensures turn { seat.new.turn ≡ seat.old.turn }
    ensures parts { seat.new.parts ≡ seat.old.parts }
{
    answer_over::<W, Brand>(rt, desk, seat, lane, call, Blank::new(1))
}

fn answer_over<W: Wait, L: Ledger>(
    rt: &W,
    desk: &Desk<MemDisk>,
    seat: &mut DeskSeat<MemDisk>,
    lane: u32,
    call: Call,
    blank: Blank,
) -> Option<(Reply, u64)>
    requires name { blank.name ≡ L.name }
    requires parts { blank.parts ≡ L.parts }
    requires some { 0 < blank.parts }
    requires own { seat.old.turn ≡ desk.now.turn }
    requires taken { IsTaken call }
    ensures turn { seat.new.turn ≡ seat.old.turn }
    ensures parts { seat.new.parts ≡ seat.old.parts }
{
    let mut steps: Steps<L> = Steps::new(blank);
    match desk.call(rt, seat, lane, call, &mut steps) {
        Ok(answered) => Some(answered),
        Err(_memory) => None,
    }
}

/// The same in a turn that is kept.
fn answer_in_turn<L: Ledger>(
    guard: &mut DeskGuard<MemDisk>,
    lane: u32,
    call: Call,
    steps: &mut Steps<L>,
) -> Option<(Reply, u64)>
    requires taken { IsTaken call }
    ensures turn { guard.new.turn ≡ guard.old.turn }
    ensures parts { guard.new.parts ≡ guard.old.parts }
{
    match call_in_turn(guard, lane, call, steps) {
        Ok(answered) => Some(answered),
        Err(_memory) => None,
    }
}

/// The reply to the commit of a transaction that begins in the same turn, and its place.
fn commit_in_one_turn<W: Wait, L: Ledger>(
    rt: &W,
    desk: &Desk<MemDisk>,
    seat: DeskSeat<MemDisk>,
    blank: Blank,
) -> (Option<(Reply, u64)>, DeskSeat<MemDisk>)
    requires name { blank.name ≡ L.name }
    requires parts { blank.parts ≡ L.parts }
    requires some { 0 < blank.parts }
    requires own { seat.turn ≡ desk.now.turn }
    ensures turn { result.1.turn ≡ seat.turn }
    ensures parts { result.1.parts ≡ seat.parts }
{
    let mut steps: Steps<L> = Steps::new(blank);
    let mut guard = desk.enter(rt, seat);
    let _ = answer_in_turn(&mut guard, 2, Call::Begin { txn: 2 }, &mut steps);
    let done = answer_in_turn(&mut guard, 2, Call::Commit { txn: 2 }, &mut steps);
    (done, desk.leave(guard))
}

/// The number of the cut that was closed, or why none was, and the entry's place.
fn close_cut<W: Wait>(
    rt: &W,
    desk: &Desk<MemDisk>,
    seat: &mut DeskSeat<MemDisk>,
) -> Option<(Result<u64, Refusal>, u64)>
    requires own { seat.old.turn ≡ desk.now.turn }
    ensures turn { seat.new.turn ≡ seat.old.turn }
    ensures parts { seat.new.parts ≡ seat.old.parts }
{
    let Ok((closed, place)) = desk.close_cut(rt, seat, 1) else {
        return None;
    };
    match closed {
        Ok(cut) => Some((Ok(cut.number()), place)),
        Err(why) => Some((Err(why), place)),
    }
}

/// Tells the desk that marking found no memory, and what it answers.
fn give_no_marks<W: Wait>(
    rt: &W,
    desk: &Desk<MemDisk>,
    seat: &mut DeskSeat<MemDisk>,
) -> Option<(Reply, u64)>
    requires own { seat.old.turn ≡ desk.now.turn }
    ensures turn { seat.new.turn ≡ seat.old.turn }
    ensures parts { seat.new.parts ≡ seat.old.parts }
{
    match desk.give_marks(rt, seat, 1, 2, None) {
        Ok(answered) => Some(answered),
        Err((_marked, _memory)) => None,
    }
}

/// Room for ten entries.
fn make_room<W: Wait>(rt: &W, desk: &Desk<MemDisk>, seat: &mut DeskSeat<MemDisk>) -> bool
    requires own { seat.old.turn ≡ desk.now.turn }
    ensures turn { seat.new.turn ≡ seat.old.turn }
    ensures parts { seat.new.parts ≡ seat.old.parts }
{
    desk.reserve(rt, seat, 10).is_ok()
}

#[test]
fn two_seats_fill_one_chronicle(rt: HostRuntime) -> Result<(), Fail> {
    let (desk, mut seat) = fresh_desk(rt.alloc())?;
    let Ok(other) = desk.split(&mut seat) else {
        unreachable!()
    };
    assert!(rt; make_room(&rt, &desk, &mut seat));
    let first = answer(&rt, &desk, &mut seat, 1, Call::Begin { txn: 1 });
    let (second, other) = commit_in_one_turn::<HostRuntime, Brand>(
        &rt,
        &desk,
        other,
        Blank::new(1),
    );
    desk.join(&mut seat, other);
    let (core, chronicle) = desk.close(seat);
    assert_eq!(rt; first, Some((Reply::Done, 0)));
    assert_eq!(rt; second, Some((Reply::Committed { commits: 1 }, 2)));
    assert_eq!(rt; core.commits(), 1);
    let entries = [
        Entry {
            lane: 1,
            call: Call::Begin { txn: 1 },
            reply: Reply::Done,
        },
        Entry {
            lane: 2,
            call: Call::Begin { txn: 2 },
            reply: Reply::Done,
        },
        Entry {
            lane: 2,
            call: Call::Commit { txn: 2 },
            reply: Reply::Committed { commits: 1 },
        },
    ];
    assert!(rt; chronicle.iter().map(|event| event.entry()).eq(entries));
    Ok(())
}

#[test]
fn an_uncopied_cut_is_not_closed_nor_marked(rt: HostRuntime) -> Result<(), Fail> {
    let (desk, mut seat) = fresh_desk(rt.alloc())?;
    assert!(rt; make_room(&rt, &desk, &mut seat));
    let opened = answer(&rt, &desk, &mut seat, 1, Call::OpenCut);
    let closed = close_cut(&rt, &desk, &mut seat);
    let marked = give_no_marks(&rt, &desk, &mut seat);
    let (_core, chronicle) = desk.close(seat);
    assert_eq!(rt; opened, Some((Reply::Cut { number: 1 }, 0)));
    assert_eq!(rt; closed, Some((Err(Refusal::Uncopied { page: 0 }), 1)));
    let why = Refusal::WrongPhase {
        now: Phase::Copying,
    };
    assert_eq!(rt; marked, Some((Reply::Refused { why }, 2)));
    assert_eq!(rt; chronicle.len(), 3);
    Ok(())
}

#[test]
fn a_copied_cut_is_closed_and_can_lack_marks(rt: HostRuntime) -> Result<(), Fail> {
    let (desk, mut seat) = fresh_desk(rt.alloc())?;
    assert!(rt; make_room(&rt, &desk, &mut seat));
    let _ = answer(&rt, &desk, &mut seat, 1, Call::OpenCut);
    let _ = answer(&rt, &desk, &mut seat, 1, Call::Copy { page: 0 });
    let _ = answer(&rt, &desk, &mut seat, 1, Call::Copy { page: 1 });
    let closed = close_cut(&rt, &desk, &mut seat);
    let marked = give_no_marks(&rt, &desk, &mut seat);
    let (_core, chronicle) = desk.close(seat);
    assert_eq!(rt; closed, Some((Ok(1), 3)));
    let why = Refusal::Memory;
    assert_eq!(rt; marked, Some((Reply::Refused { why }, 4)));
    let notes = chronicle.iter().map(|event| event.note());
    assert!(rt; matches!(notes.last(), Some(Note::Marks { cut: None })));
    Ok(())
}
