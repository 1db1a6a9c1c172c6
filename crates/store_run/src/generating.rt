//! The command that makes a run of the generator.
ghost use Rattle.std.specs.Prelude.{◌≡◌, ◌≢◌, ◌≤◌, ◌<◌, ℕ, [], IfSome, vec_capacity};
ghost use Rattle.disk_trait.specs.Causes.{Rose};
ghost use Rattle.disk_trait.specs.DiskFacts.{KeepsDisk};
ghost use Rattle.cut_core.specs.Starts.{IsJustOpened};
ghost use Rattle.generator.specs.Rounds.{most_rounds, store_pages};
ghost use Rattle.store_run.specs.Generated.{Generated, GeneratedBy, RoundsMade, WroteLine, make_status, status_of_stop};

use crate::opening::refused;
use crate::status::Status;
use crate::writing::write_all;
use cut_core::Core;
use disk_trait::{Disk, Sink};
use generator::{PAGES, SUMMARY_ROOM, Stop, generate};
use object_graph::Steps;
use recovery::{MakeFault, make};
use std::alloc::Global;
use std::marker::Brand;
use std::sync::ledger::{Blank, Ledger};
use std::thread::Threads;
use store_machine::Machine;

/// Makes a fresh store of 16 pages on the disk and opens it, makes `count` rounds of the generator
/// from the number `from`, and writes the line of what they counted (FORMATS.md, "The generator").
pub fn generate_store<T: Threads + Sync, D: Disk, K: Sink>(
    threads: &T,
    alloc: Global,
    from: u64,
    count: u64,
    sink: &mut K,
    disk: D,
) -> (Status, D)
    requires { count ≤ most_rounds }
    ensures generated { GeneratedBy result.0 (D.size disk) (D.content disk)
        (Generated ⟦<D as Disk>⟧ result.0 from count disk result.1 (K.held sink.old) (K.held sink.new)) (sink.new ≡ sink.old) }
    ensures write_fault { result.0 ≡ Status.WriteFault → Rose (K.faults sink.old) (K.faults sink.new) }
    ensures write_calm { result.0 ≢ Status.WriteFault → K.faults sink.new ≡ K.faults sink.old }
    ensures disk_fault { result.0 ≡ Status.DiskFault → Rose (D.fault_count disk) (D.fault_count result.1) }
    ensures lack { result.0 ≡ Status.Memory → D.fault_count result.1 ≡ D.fault_count disk }
    ensures calm { result.0 ≡ Status.Done → D.fault_count result.1 ≡ D.fault_count disk }
    ensures calm_none { result.0 ≡ Status.NotAStore → D.fault_count result.1 ≡ D.fault_count disk }
    ensures calm_bad { (at : ℕ) → result.0 ≡ Status.Damaged at → D.fault_count result.1 ≡ D.fault_count disk }
    ensures disk_calm { result.0 ≡ Status.WriteFault → D.fault_count result.1 ≡ D.fault_count disk }
    ensures untouched { (len need : ℕ) → result.0 ≡ Status.TooShort len need → result.1 ≡ disk }
    ensures keeps { KeepsDisk ⟦<D as Disk>⟧ disk result.1 }
{
    let mut disk = disk;
    if let Err(fault) = make(alloc, &mut disk, u64::from(PAGES)) {
        return (unmade(fault), disk);
    }
    let Ok(mut line) = Vec::with_capacity(alloc, SUMMARY_ROOM) else {
        return (Status::Memory, disk);
    };
    match Core::start(alloc, disk) {
        Ok(core) => {
            if core.pages() != PAGES || core.commits() != 0 {
                return (Status::NotAStore, core.into_disk());
            }
            make_rounds::<T, D, K, Brand>(
                threads,
                alloc,
                core,
                from,
                count,
                &mut line,
                sink,
                Blank::new(1),
            )
        }
        Err((disk, fault)) => (refused(fault), disk),
    }
}

/// The status where a store couldn't be made.
fn unmade(fault: MakeFault) -> Status
    ensures { result ≡ make_status fault }
{
    match fault {
        MakeFault::BadPages { pages } => Status::BadPages { pages },
        MakeFault::TooShort { len, need } => Status::TooShort { len, need },
        MakeFault::Memory => Status::Memory,
        MakeFault::DiskFault => Status::DiskFault,
    }
}

/// Makes the rounds on a store that was just opened, and writes their line.
fn make_rounds<T: Threads + Sync, D: Disk, K: Sink, L: Ledger>(
    threads: &T,
    alloc: Global,
    core: Core<D>,
    from: u64,
    count: u64,
    line: &mut Vec<u8>,
    sink: &mut K,
    blank: Blank,
) -> (Status, D)
    requires name { blank.name ≡ L.name }
    requires parts { blank.parts ≡ L.parts }
    requires some { 0 < blank.parts }
    requires just_opened { IsJustOpened core.world }
    requires pages { core.world.pages ≡ store_pages }
    requires fresh { core.world.commits ≡ 0 }
    requires few { count ≤ most_rounds }
    requires empty { line.old.items ≡ [] }
    requires room { SUMMARY_ROOM ≤ vec_capacity line.old }
    ensures made { RoundsMade ⟦<D as Disk>⟧ result.0 from count core result.1 (K.held sink.old) (K.held sink.new) }
    ensures write_fault { result.0 ≡ Status.WriteFault → Rose (K.faults sink.old) (K.faults sink.new) }
    ensures write_calm { result.0 ≢ Status.WriteFault → K.faults sink.new ≡ K.faults sink.old }
    ensures disk_fault { result.0 ≡ Status.DiskFault → Rose (D.fault_count core.disk) (D.fault_count result.1) }
    ensures disk_calm { result.0 ≢ Status.DiskFault → D.fault_count result.1 ≡ D.fault_count core.disk }
{
    let mut machine = Machine::of(alloc, core);
    let mut steps: Steps<L> = Steps::new(blank);
    match generate(&mut machine, threads, from, count, line, &mut steps) {
        Err(stop) => {
            let stopped = machine.into_disk();
            (stop_status(stop), stopped)
        }
        Ok(()) => {
            let whole = machine.into_disk();
            (write_line(sink, line), whole)
        }
    }
}

/// The status of a run that stopped.
fn stop_status(stop: Stop) -> Status
    ensures { result ≡ status_of_stop stop }
{
    match stop {
        Stop::Memory => Status::Memory,
        Stop::DiskFault => Status::DiskFault,
    }
}

/// Writes the line of a run.
fn write_line<K: Sink>(sink: &mut K, line: &[u8]) -> Status
    ensures wrote { WroteLine result (K.held sink.old) (K.held sink.new) line.now }
    ensures fault { result ≡ Status.WriteFault → Rose (K.faults sink.old) (K.faults sink.new) }
    ensures calm { result ≢ Status.WriteFault → K.faults sink.new ≡ K.faults sink.old }
{
    match write_all(sink, line) {
        Ok(()) => Status::Done,
        Err(_) => Status::WriteFault,
    }
}
