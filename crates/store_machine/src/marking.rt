//! Marking the cut that was closed.
ghost use Rattle.std.specs.Prelude.{◌≡◌, ℕ, None};
ghost use Rattle.object_graph.specs.declared.calls.Call.TheVariants.{Mark};
ghost use Rattle.object_graph.specs.declared.calls.Reply.TheVariants.{Done, Refused};
ghost use Rattle.object_graph.specs.declared.calls.Refusal.TheVariants.{Memory as NoMemory};
ghost use Rattle.store_model.specs.Replies.{Allows};
ghost use Rattle.cut_core.specs.Given.{mark_event};
ghost use Rattle.mark_pool.specs.Jobs.{AreWorkers};
ghost use Rattle.store_machine.specs.Acts.{Answered};
ghost use Rattle.store_machine.specs.Kept.{IsKeptCut, IsUnclosed, KeepsClosed};

use cut_builder::{ClosedCut, MarkedCut};
use cut_core::Core;
use disk_trait::{Disk, OpenGate};
use mark_pool::mark;
use object_graph::{Refusal, Reply};
use std::alloc::Global;
use std::thread::Threads;

/// Marks the closed cut of a core by so many workers, and gives the core its marks. Where there is no
/// memory for marking, the cut comes back.
pub fn mark_closed<T: Threads + Sync, D: Disk>(
    core: &mut Core<D>,
    threads: &T,
    alloc: Global,
    cut: ClosedCut,
    workers: u32,
) -> (Reply, Option<ClosedCut>)
    requires workers { AreWorkers workers }
    requires kept { IsKeptCut core.old.world core.old.beside cut }
    requires may { (count : ℕ) → Allows core.old.world (mark_event count None (Refused NoMemory)) }
    ensures answered { Answered ⟦<D as Disk>⟧ core.old core.new (Mark workers) result.0 }
    ensures kept { KeepsClosed core.new result.1 }
{
    core.stands();
    match mark(threads, alloc, &OpenGate, cut, workers) {
        Ok(marked) => {
            give_marks(core, marked);
            (Reply::Done, None)
        }
        Err((cut, _)) => (
            Reply::Refused {
                why: Refusal::Memory,
            },
            Some(cut),
        ),
    }
}

/// Gives a core the marks of its closed cut.
fn give_marks<D: Disk>(core: &mut Core<D>, marked: MarkedCut)
    requires kept { IsKeptCut core.old.world core.old.beside marked.cut }
    requires may { (count : ℕ) → Allows core.old.world (mark_event count None (Refused NoMemory)) }
    ensures answered { (workers : ℕ) → Answered ⟦<D as Disk>⟧ core.old core.new (Mark workers) Done }
    ensures unclosed { IsUnclosed core.new.world }
{
    let Ok(()) = core.give_marks(marked) else {
        unreachable!()
    };
    core.stands();
}
