//! Small scripts of several lanes, over a store in memory.
ghost use Rattle.std.specs.Prelude.{◌≡◌, ◌∷◌, [], IfOk};
ghost use Rattle.turn_lock.specs.Seats.{all_parts};

use crate::run_lanes;
use cut_core::Core;
use disk_trait::{Gate, MeetGate, MemDisk, OpenGate};
use object_graph::{Call, Memory, Reply, SlotSet};
use recovery::make;
use std::alloc::Global;
use std::process::Abort;
use std::sync::Wait;
use std::test::Fail;
use std::thread::Threads;
use store_desk::{Desk, DeskSeat, Event};

/// The bytes of a store of two pages.
const TWO_PAGES: u64 = 527_360;

/// A core over a fresh store of two pages.
fn fresh(alloc: Global) -> Result<Core<MemDisk>, Memory> {
    let mut disk = MemDisk::new(alloc, TWO_PAGES, Vec::new(alloc))?;
    let Ok(()) = make(alloc, &mut disk, 2) else {
        return Err(Memory);
    };
    match Core::start(alloc, disk) {
        Ok(core) => Ok(core),
        Err((_, _)) => Err(Memory),
    }
}

/// A desk over such a store, with the first seat.
fn fresh_desk(alloc: Global) -> Result<(Desk<MemDisk>, DeskSeat<MemDisk>), Memory>
    ensures own { IfOk result (λ d. d.1.turn ≡ d.0.turn) }
    ensures start { IfOk result (λ d. d.1.start ≡ d.0.value.start ∷ []) }
    ensures fresh { IfOk result (λ d. d.1.own ≡ []) }
    ensures parts { IfOk result (λ d. d.1.parts ≡ all_parts) }
{
    let core = fresh(alloc)?;
    match Desk::new(alloc, core) {
        Ok(made) => Ok(made),
        Err((_core, memory)) => Err(memory),
    }
}

/// Whether all lanes came to their ends, and the chronicle.
fn run_all<R: Threads + Wait + Sync, G: Gate>(
    rt: &R,
    alloc: Global,
    script: &[u8],
    gate: &G,
) -> Result<(bool, Vec<Event>), Memory> {
    let (desk, mut seat) = fresh_desk(alloc)?;
    let room = desk.reserve(rt, &mut seat, 100);
    let (seat, whole) = run_lanes(rt, alloc, &desk, seat, gate, script);
    let (_core, chronicle) = desk.close(seat);
    room?;
    Ok((whole, chronicle))
}

/// Whether these are a lane's calls, in order.
fn are_calls(chronicle: &[Event], lane: u32, calls: &[Call]) -> bool {
    let own = chronicle.iter().filter(|event| event.entry().lane == lane);
    own.map(|event| event.entry().call)
        .eq(calls.iter().copied())
}

#[test]
fn three_lanes_meet_in_one_chronicle(rt: HostRuntime) -> Result<(), Fail> {
    let gate = MeetGate::new(3, 10_000_000);
    let script = b"1 begin 1\n1 new 1 1\n1 commit 1\n2 begin 2\n2 abort 2\n3 collect 2\n";
    let (whole, chronicle) = run_all(&rt, rt.alloc(), script, &gate)?;
    assert!(rt; whole && gate.met());
    assert_eq!(rt; chronicle.len(), 13);
    let first = [
        Call::Begin { txn: 1 },
        Call::New { txn: 1, page: 1 },
        Call::Commit { txn: 1 },
    ];
    assert!(rt; are_calls(&chronicle, 1, &first));
    let second = [Call::Begin { txn: 2 }, Call::Abort { txn: 2 }];
    assert!(rt; are_calls(&chronicle, 2, &second));
    Ok(())
}

/// How often an entry is of another lane than the one before it.
fn changes_of_lane(chronicle: &[Event]) -> usize {
    let lanes = chronicle.iter().map(|event| event.entry().lane);
    let later = chronicle.iter().skip(1).map(|event| event.entry().lane);
    lanes.zip(later).filter(|(lane, next)| lane != next).count()
}

#[test]
fn a_lane_makes_its_calls_in_one_turn(rt: HostRuntime) -> Result<(), Fail> {
    let gate = MeetGate::new(2, 10_000_000);
    let first =
        b"1 begin 1\n1 abort 1\n1 begin 1\n1 abort 1\n1 begin 1\n1 abort 1\n1 begin 1\n1 abort 1\n";
    let second =
        b"2 begin 2\n2 abort 2\n2 begin 2\n2 abort 2\n2 begin 2\n2 abort 2\n2 begin 2\n2 abort 2\n";
    let mut script = Vec::new(rt.alloc());
    script.extend_from_slice(first)?;
    script.extend_from_slice(second)?;
    let (whole, chronicle) = run_all(&rt, rt.alloc(), &script, &gate)?;
    assert!(rt; whole && gate.met());
    assert_eq!(rt; chronicle.len(), 16);
    assert_eq!(rt; changes_of_lane(&chronicle), 1);
    Ok(())
}

#[test]
fn a_lane_opens_a_cut_and_copies_in_one_turn(rt: HostRuntime) -> Result<(), Fail> {
    let gate = MeetGate::new(2, 10_000_000);
    let script = b"1 collect 1\n2 collect 1\n";
    let (whole, chronicle) = run_all(&rt, rt.alloc(), script, &gate)?;
    assert!(rt; whole && gate.met());
    let calls = [
        Call::OpenCut,
        Call::Copy { page: 0 },
        Call::Copy { page: 1 },
    ];
    let first = chronicle.iter().take(3).map(|event| event.entry().call);
    assert!(rt; first.eq(calls));
    let opened_by = chronicle.first().map(|event| event.entry().lane);
    let mut copied_by = chronicle.iter().take(3).map(|event| event.entry().lane);
    assert!(rt; copied_by.all(|lane| Some(lane) == opened_by));
    Ok(())
}

/// The reply to a sweep that freed nothing.
fn none_freed() -> Reply {
    Reply::Freed {
        slots: SlotSet::empty(),
    }
}

#[test]
fn a_lane_collects_a_store_without_garbage(rt: HostRuntime) -> Result<(), Fail> {
    let script = b"1 begin 1\n# a note\n1 collect 1";
    let (whole, chronicle) = run_all(&rt, rt.alloc(), script, &OpenGate)?;
    assert!(rt; whole);
    let replies = [
        Reply::Done,
        Reply::Cut { number: 1 },
        Reply::Done,
        Reply::Done,
        Reply::Done,
        Reply::Done,
        none_freed(),
        none_freed(),
        Reply::Done,
    ];
    assert!(rt;
        chronicle
            .iter()
            .map(|event| event.entry().reply)
            .eq(replies)
    );
    Ok(())
}
