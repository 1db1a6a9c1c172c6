//! The collection after every 32nd round.
ghost use Rattle.std.specs.Prelude.{◌≡◌, ◌≤◌, ◌<◌, length, IfOk};
ghost use Rattle.object_graph.specs.Slots.{slots_in};
ghost use Rattle.object_graph.specs.declared.calls.Phase.TheVariants.{Copying, Sweeping};
ghost use Rattle.generator.specs.Rounds.{store_pages, store_slots};
ghost use Rattle.generator.specs.Summaries.{freed_by_reply};
ghost use Rattle.generator.specs.Between.{IsCollecting, IsResting};
ghost use Rattle.generator.specs.Making.{Collects, HasCopied, Swept, SweptPage};

use crate::asking::{Stop, ask, tell};
use disk_trait::Disk;
use object_graph::{Call, MOST_SLOTS, Reply, SlotSet, Steps};
use std::sync::ledger::Ledger;
use std::thread::Threads;
use store_machine::Machine;

/// The pages of a run's store.
pub const PAGES: u32 = 16;

/// How many workers mark a cut.
const WORKERS: u32 = 4;

/// Collects, by one cut from its opening to its end. Answers how many slots were freed.
pub fn collect<T: Threads + Sync, D: Disk, L: Ledger>(
    machine: &mut Machine<D>,
    threads: &T,
    steps: &mut Steps<L>,
) -> Result<u64, Stop>
    requires resting { IsResting machine.old.world }
    requires cuts { machine.old.world.last_cut < machine.old.world.commits }
    ensures collected { Collects ⟦<D as Disk>⟧ machine.old machine.new result }
    ensures few { IfOk result (λ freed. freed ≤ store_slots) }
{
    if let Err(stop) = ask(machine, threads, Call::OpenCut, steps) {
        return Err(stop);
    }
    copy_pages(machine, threads, steps);
    tell(machine, threads, Call::Close, steps);
    let mark = Call::Mark { workers: WORKERS };
    if let Err(stop) = ask(machine, threads, mark, steps) {
        return Err(stop);
    }
    let freed = match sweep_pages(machine, threads, steps) {
        Ok(freed) => freed,
        Err(stop) => return Err(stop),
    };
    tell(machine, threads, Call::EndCut, steps);
    Ok(freed)
}

/// Copies each page for the cut that was opened.
fn copy_pages<T: Threads + Sync, D: Disk, L: Ledger>(
    machine: &mut Machine<D>,
    threads: &T,
    steps: &mut Steps<L>,
)
    requires { IsCollecting Copying 0 0 machine.old.world }
    ensures { HasCopied ⟦<D as Disk>⟧ machine.old machine.new store_pages }
{
    machine.stands();
    'pages: for page in 0..PAGES {
        tell(machine, threads, Call::Copy { page }, steps);
    }
}

/// Sweeps each page by the marks of the cut. Answers how many slots were freed.
fn sweep_pages<T: Threads + Sync, D: Disk, L: Ledger>(
    machine: &mut Machine<D>,
    threads: &T,
    steps: &mut Steps<L>,
) -> Result<u64, Stop>
    requires { IsCollecting Sweeping store_pages 0 machine.old.world }
    ensures swept { Swept ⟦<D as Disk>⟧ machine.old machine.new result }
    ensures few { IfOk result (λ freed. freed ≤ store_slots) }
{
    machine.stands();
    let mut freed = 0;
    'pages: for page in 0..PAGES {
        match sweep_page(machine, threads, page, steps) {
            Ok(slots) => freed += slots,
            Err(stop) => return Err(stop),
        }
    }
    Ok(freed)
}

/// Sweeps a page. Answers how many slots were freed.
fn sweep_page<T: Threads + Sync, D: Disk, L: Ledger>(
    machine: &mut Machine<D>,
    threads: &T,
    page: u32,
    steps: &mut Steps<L>,
) -> Result<u64, Stop>
    requires collecting { IsCollecting Sweeping store_pages page machine.old.world }
    requires page { page < store_pages }
    ensures swept { SweptPage ⟦<D as Disk>⟧ machine.old machine.new page result }
    ensures few { IfOk result (λ freed. freed ≤ MOST_SLOTS) }
{
    match ask(machine, threads, Call::Sweep { page }, steps) {
        Ok(reply) => Ok(freed_by(reply)),
        Err(stop) => Err(stop),
    }
}

/// How many slots a reply says that are freed.
fn freed_by(reply: Reply) -> u64
    ensures count { result ≡ freed_by_reply reply }
    ensures few { result ≤ MOST_SLOTS }
{
    match reply {
        Reply::Freed { slots } => count_of(slots),
        _ => 0,
    }
}

/// How many slots a set has.
fn count_of(slots: SlotSet) -> u64
    ensures count { result ≡ length (slots_in slots) }
    ensures few { result ≤ MOST_SLOTS }
{
    let mut count = 0;
    'slots: for slot in 0..MOST_SLOTS {
        if slots.has(slot) {
            count += 1;
        }
    }
    count
}
