//! Calls that are answered, or stop a run.
ghost use Rattle.std.specs.Prelude.{◌≡◌, ◌≢◌, ◌⊎◌};
ghost use Rattle.object_graph.specs.declared.calls.Call.TheVariants.{Reopen};
ghost use Rattle.object_graph.specs.declared.calls.Refusal.TheVariants.{Memory as NoMemory, DiskFault};
ghost use Rattle.generator.specs.Between.{IsNeverRefused, IsOnlyStopped};
ghost use Rattle.generator.specs.Making.{Asked, Replied, why_of};
ghost use Rattle.store_machine.specs.Calls.{IsOfScript};

use disk_trait::Disk;
use object_graph::{Call, Refusal, Reply, Steps};
use std::sync::ledger::Ledger;
use std::thread::Threads;
use store_machine::Machine;

/// Why a run stops before its end.
#[derive(Clone, Copy, Debug, PartialEq, Eq)]
pub enum Stop {
    /// There was no memory for a call.
    Memory,
    /// The disk failed in a call.
    DiskFault,
}

/// A call that can't be refused, and its reply.
pub fn tell<T: Threads + Sync, D: Disk, L: Ledger>(
    machine: &mut Machine<D>,
    threads: &T,
    call: Call,
    steps: &mut Steps<L>,
) -> Reply
    requires script { IsOfScript call }
    requires going { call ≢ Reopen }
    requires never { IsNeverRefused machine.old.world call }
    ensures { Replied ⟦<D as Disk>⟧ machine.old machine.new call result }
{
    machine.answer(threads, call, steps)
}

/// A call that can be refused for want of memory or for a fault of the disk alone, and its reply.
pub fn ask<T: Threads + Sync, D: Disk, L: Ledger>(
    machine: &mut Machine<D>,
    threads: &T,
    call: Call,
    steps: &mut Steps<L>,
) -> Result<Reply, Stop>
    requires script { IsOfScript call }
    requires going { call ≢ Reopen }
    requires only { IsOnlyStopped machine.old.world call }
    ensures { Asked ⟦<D as Disk>⟧ machine.old machine.new call result }
{
    match machine.answer(threads, call, steps) {
        Reply::Refused { why } => Err(ending(why)),
        reply => Ok(reply),
    }
}

/// The end that a refusal puts to a run.
fn ending(why: Refusal) -> Stop
    requires { (why ≡ NoMemory) ⊎ (why ≡ DiskFault) }
    ensures { why_of result ≡ why }
{
    match why {
        Refusal::DiskFault => Stop::DiskFault,
        _ => Stop::Memory,
    }
}
