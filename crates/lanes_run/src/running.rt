//! Running a script of lanes that was read.
ghost use Rattle.std.specs.Prelude.{◌≡◌, ◌≢◌, ◌≤◌, ◌∷◌, [], vec_capacity};
ghost use Rattle.disk_trait.specs.Causes.{Rose};
ghost use Rattle.script_lang.specs.Script.{lines_of};
ghost use Rattle.store_model.specs.Lawful.{IsLawful};
ghost use Rattle.store_desk.specs.States.{IsKept};
ghost use Rattle.turn_lock.specs.Seats.{all_parts, first_seat};
ghost use Rattle.store_lanes.specs.Lanes.{LanesRan};
ghost use Rattle.store_lanes.specs.Owned.{SameSeat};
ghost use Rattle.lanes_run.specs.Ended.{LanesEnded, ended_by};

use crate::chronicle::{LINES_ROOM, write_chronicle};
use crate::reading::Script;
use cut_core::Core;
use disk_trait::{Disk, Gate, Sink};
use std::alloc::Global;
use std::sync::Wait;
use std::thread::Threads;
use store_desk::{Desk, DeskSeat};
use store_lanes::{LANES, run_lanes};
use store_run::Status;

/// Makes room for all entries, and runs the lanes. Answers whether all came to their ends.
fn start_lanes<R: Threads + Wait + Sync, D: Disk + Send, G: Gate>(
    rt: &R,
    alloc: Global,
    desk: &Desk<D>,
    mut seat: DeskSeat<D>,
    gate: &G,
    script: &Script,
) -> (DeskSeat<D>, bool)
    requires own { seat.turn ≡ desk.now.turn }
    requires start { seat.start ≡ desk.now.value.start ∷ [] }
    requires fresh { seat.own ≡ [] }
    requires parts { seat.parts ≡ all_parts }
    ensures ran { LanesRan D.Disk desk.now.value.start (lines_of script.now.bytes.items) 1 LANES result.1 result.0 }
    ensures same { SameSeat seat result.0 }
{
    match desk.reserve(rt, &mut seat, script.entries) {
        Ok(()) => run_lanes(rt, alloc, desk, seat, gate, &script.bytes),
        Err(_) => (seat, false),
    }
}

/// How a script ends whose chronicle was written.
fn ended<D: Disk>(whole: bool, core: &Core<D>) -> Status
    ensures { result ≡ ended_by whole core.now.world.broken }
{
    match core.broken() {
        _ if !whole => Status::Memory,
        None => Status::Done,
        Some(_) => Status::DiskFault,
    }
}

/// Runs the lanes of a script at a desk that was just made, and then writes the chronicle.
fn run_at_desk<R: Threads + Wait + Sync, D: Disk + Send, K: Sink, G: Gate>(
    rt: &R,
    alloc: Global,
    desk: Desk<D>,
    seat: DeskSeat<D>,
    script: &Script,
    buffer: &mut Vec<u8>,
    sink: &mut K,
    gate: &G,
) -> (Status, Core<D>)
    requires room { LINES_ROOM ≤ vec_capacity buffer.old }
    requires nothing_yet { desk.value.chronicle ≡ [] }
    requires seat { seat ≡ first_seat desk.turn desk.value.start [] }
    ensures ended { LanesEnded D.Disk result.0 desk.value.start result.1 (lines_of script.now.bytes.items) (K.held sink.old) (K.held sink.new) }
    ensures cause { result.0 ≡ Status.WriteFault → Rose (K.faults sink.old) (K.faults sink.new) }
    ensures calm { result.0 ≢ Status.WriteFault → K.faults sink.new ≡ K.faults sink.old }
{
    let (seat, whole) = start_lanes(rt, alloc, &desk, seat, gate, script);
    let (core, chronicle) = desk.close(seat);
    match write_chronicle(&chronicle, buffer, sink) {
        Ok(()) => (ended(whole, &core), core),
        Err(_) => (Status::WriteFault, core),
    }
}

/// Before the first call a core is what it was. It does nothing.
pub fn nothing_done<D: Disk>(core: &Core<D>)
    ensures lawful { IsLawful core.now.world }
    ensures kept { IsKept D.Disk core.now core.now [] }
{
    core.stands();
}

/// Runs the lanes of a script on the core, and then writes the chronicle.
pub fn run_script<R: Threads + Wait + Sync, D: Disk + Send, K: Sink, G: Gate>(
    rt: &R,
    alloc: Global,
    core: Core<D>,
    script: &Script,
    buffer: &mut Vec<u8>,
    sink: &mut K,
    gate: &G,
) -> (Status, Core<D>)
    requires { LINES_ROOM ≤ vec_capacity buffer.old }
    ensures ended { LanesEnded D.Disk result.0 core result.1 (lines_of script.now.bytes.items) (K.held sink.old) (K.held sink.new) }
    ensures cause { result.0 ≡ Status.WriteFault → Rose (K.faults sink.old) (K.faults sink.new) }
    ensures calm { result.0 ≢ Status.WriteFault → K.faults sink.new ≡ K.faults sink.old }
{
    nothing_done(&core);
    match Desk::new(alloc, core) {
        Ok((desk, seat)) => run_at_desk(rt, alloc, desk, seat, script, buffer, sink, gate),
        Err((core, _)) => (Status::Memory, core),
    }
}
