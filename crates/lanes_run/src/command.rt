//! The command `lanes`.
ghost use Rattle.std.specs.Prelude.{◌≡◌, ◌≢◌, ◌↔◌, ◌≤◌, ℕ, List, Some, IfSome, IsTrue, map, string_bytes, vec_capacity};
ghost use Rattle.disk_trait.specs.Causes.{Rose};
ghost use Rattle.disk_trait.specs.DiskFacts.{KeepsDisk};
ghost use Rattle.cut_core.specs.Starts.{IsJustOpened};
ghost use Rattle.image_model.specs.Opening.{StoreParts, not_a_store, damaged};
ghost use Rattle.image_model.specs.Stores.{IsStore, HasFault};
ghost use Rattle.image_model.specs.Stands.{opened_world};
ghost use Rattle.store_run.specs.Complete.{IsDoneOrMemory};
ghost use Rattle.store_run.specs.Ran.{NotRun};
ghost use Rattle.lanes_run.specs.Asked.{AreLanes};
ghost use Rattle.lanes_run.specs.Complete.{IsLaneScript};
ghost use Rattle.lanes_run.specs.Ended.{StoreLanes};
ghost use Rattle.lanes_run.specs.RanLanes.{RanLanes, LanesBy, is_refusing};

use crate::chronicle::LINES_ROOM;
use crate::reading::read_script;
use crate::running::{nothing_done, run_script};
use cut_core::Core;
use disk_trait::{Disk, Gate, Sink, Source};
use std::alloc::Global;
use std::sync::Wait;
use std::thread::Threads;
use store_run::{Status, refused};

/// Runs a script of several lanes on the store of the disk (FORMATS.md, "Commands"). It reads the whole
/// script first, and refuses it or starts the lanes, each in a thread of its own. A lane passes the gate
/// before each of its lines, with its number and the line's among its own, from 1 on. When all have
/// returned, the chronicle is written, an entry a line. The disk is handed back. It may wait; its
/// promises hold where it returns.
pub fn top_lanes<R: Threads + Wait + Sync, D: Disk + Send, S: Source, K: Sink, G: Gate>(
    rt: &R,
    alloc: Global,
    words: &[String],
    source: &mut S,
    sink: &mut K,
    disk: D,
    gate: &G,
) -> (Status, D)
    // One history, legal from the world that the store opens to, says what was read, done and written, and what a crash leaves.
    ensures ran { AreLanes (map string_bytes words.now)
        → LanesBy result.0 (RanLanes ⟦<D as Disk>⟧ result.0 disk result.1 (S.left source.old) (S.left source.new) (K.held sink.old) (K.held sink.new))
        (NotRun ⟦<D as Disk>⟧ disk result.1 source.old source.new sink.old sink.new) (D.fault_count result.1 ≡ D.fault_count disk) }

    // Each status has its cause. Those that aren't here stand in the record.
    ensures usage { (result.0 ≡ Status.Usage) ↔ ¬ AreLanes (map string_bytes words.now) }
    ensures unused { result.0 ≡ Status.Usage → (source.new ≡ source.old) × (sink.new ≡ sink.old) × (result.1 ≡ disk) }
    ensures unwritten { IsTrue (is_refusing result.0) → sink.new ≡ sink.old }
    ensures read_fault { result.0 ≡ Status.ReadFault → Rose (S.faults source.old) (S.faults source.new) }
    ensures read_calm { result.0 ≢ Status.ReadFault → S.faults source.new ≡ S.faults source.old }
    ensures write_fault { result.0 ≡ Status.WriteFault → Rose (K.faults sink.old) (K.faults sink.new) }
    ensures write_calm { result.0 ≢ Status.WriteFault → K.faults sink.new ≡ K.faults sink.old }
    ensures disk_fault { result.0 ≡ Status.DiskFault → Rose (D.fault_count disk) (D.fault_count result.1) }
    ensures no_store { result.0 ≡ Status.NotAStore → IfSome (D.content disk) (λ file. HasFault file not_a_store) }
    ensures damage { (at : ℕ) → result.0 ≡ Status.Damaged at → IfSome (D.content disk) (λ file. HasFault file (damaged at)) }

    // The disk is as long as before, and its count of faults never falls.
    ensures keeps { KeepsDisk ⟦<D as Disk>⟧ disk result.1 }

    // Where nothing fails, a script in the grammar is run to its end.
    ensures complete { (script file : List ℕ) (store : StoreParts) → AreLanes (map string_bytes words.now) → S.left source.old ≡ Some script → D.content disk ≡ Some file → IsStore file store
        → IsLaneScript (opened_world file).pages script → ¬ Rose (S.faults source.old) (S.faults source.new) → ¬ Rose (K.faults sink.old) (K.faults sink.new)
        → ¬ Rose (D.fault_count disk) (D.fault_count result.1) → IsDoneOrMemory result.0 }
{
    if is_lanes(words) {
        open_and_run(rt, alloc, source, sink, disk, gate)
    } else {
        (Status::Usage, disk)
    }
}

fn is_lanes(words: &[String]) -> bool
    ensures { IsTrue result ↔ AreLanes (map string_bytes words.now) }
{
    match words {
        [word] => word.as_str() == "lanes",
        _ => false,
    }
}

fn open_and_run<R: Threads + Wait + Sync, D: Disk + Send, S: Source, K: Sink, G: Gate>(
    rt: &R,
    alloc: Global,
    source: &mut S,
    sink: &mut K,
    disk: D,
    gate: &G,
) -> (Status, D)
    ensures ran { LanesBy result.0 (RanLanes ⟦<D as Disk>⟧ result.0 disk result.1 (S.left source.old) (S.left source.new) (K.held sink.old) (K.held sink.new))
        (NotRun ⟦<D as Disk>⟧ disk result.1 source.old source.new sink.old sink.new) (D.fault_count result.1 ≡ D.fault_count disk) }
    ensures unwritten { IsTrue (is_refusing result.0) → sink.new ≡ sink.old }
    ensures read_fault { result.0 ≡ Status.ReadFault → Rose (S.faults source.old) (S.faults source.new) }
    ensures read_calm { result.0 ≢ Status.ReadFault → S.faults source.new ≡ S.faults source.old }
    ensures write_fault { result.0 ≡ Status.WriteFault → Rose (K.faults sink.old) (K.faults sink.new) }
    ensures write_calm { result.0 ≢ Status.WriteFault → K.faults sink.new ≡ K.faults sink.old }
    ensures disk_fault { result.0 ≡ Status.DiskFault → Rose (D.fault_count disk) (D.fault_count result.1) }
    ensures no_store { result.0 ≡ Status.NotAStore → IfSome (D.content disk) (λ file. HasFault file not_a_store) }
    ensures damage { (at : ℕ) → result.0 ≡ Status.Damaged at → IfSome (D.content disk) (λ file. HasFault file (damaged at)) }
    ensures keeps { KeepsDisk ⟦<D as Disk>⟧ disk result.1 }
{
    let Ok(mut buffer) = Vec::with_capacity(alloc, LINES_ROOM) else {
        return (Status::Memory, disk);
    };
    match Core::start(alloc, disk) {
        Ok(core) => {
            let (status, core) = read_and_run(rt, alloc, core, &mut buffer, source, sink, gate);
            (status, core.into_disk())
        }
        Err((disk, fault)) => (refused(fault), disk),
    }
}

/// Reads a script, and runs it on a store that was just opened, unless it is refused.
fn read_and_run<R: Threads + Wait + Sync, D: Disk + Send, S: Source, K: Sink, G: Gate>(
    rt: &R,
    alloc: Global,
    core: Core<D>,
    buffer: &mut Vec<u8>,
    source: &mut S,
    sink: &mut K,
    gate: &G,
) -> (Status, Core<D>)
    requires { LINES_ROOM ≤ vec_capacity buffer.old }
    ensures ran { StoreLanes D.Disk result.0 core result.1 (S.left source.old) (S.left source.new) (K.held sink.old) (K.held sink.new) }
    ensures unwritten { IsTrue (is_refusing result.0) → sink.new ≡ sink.old }
    ensures read_fault { result.0 ≡ Status.ReadFault → Rose (S.faults source.old) (S.faults source.new) }
    ensures read_calm { result.0 ≢ Status.ReadFault → S.faults source.new ≡ S.faults source.old }
    ensures write_fault { result.0 ≡ Status.WriteFault → Rose (K.faults sink.old) (K.faults sink.new) }
    ensures write_calm { result.0 ≢ Status.WriteFault → K.faults sink.new ≡ K.faults sink.old }
{
    nothing_done(&core);
    match read_script(alloc, core.pages(), source) {
        Ok(script) => run_script(rt, alloc, core, &script, buffer, sink, gate),
        Err(status) => (status, core),
    }
}
