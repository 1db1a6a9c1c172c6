//! Running the calls of a line.
ghost use Rattle.std.specs.Prelude.{◌≡◌, ◌≢◌, ◌≤◌, ◌++◌, ◌∷◌, [], Err, vec_capacity};
ghost use Rattle.disk_trait.specs.Causes.{Rose};
ghost use Rattle.store_model.specs.Texts.{reply_text};
ghost use Rattle.mark_pool.specs.Jobs.{AreWorkers};
ghost use Rattle.store_machine.specs.Calls.{IsOfScript};
ghost use Rattle.store_run.specs.Lines.{CallRan, CollectionRan};

use crate::status::Status;
use crate::writing::write_all;
use disk_trait::{Disk, Sink};
use object_graph::{Call, Reply, Steps};
use script_lang::print_reply;
use std::sync::ledger::Ledger;
use std::thread::Threads;
use store_machine::{Machine, collection_call};
use store_model::is_refused;

/// Room for the line of a reply.
pub const REPLY_ROOM: usize = 256;

/// A reply's line, in place of what the buffer held.
#[inline(always)]
fn print_line(reply: Reply, buffer: &mut Vec<u8>)
    requires { REPLY_ROOM ≤ vec_capacity buffer.old }
    ensures text { buffer.new.items ≡ reply_text reply ++ 10 ∷ [] }
    ensures room { REPLY_ROOM ≤ vec_capacity buffer.new }
{
    buffer.clear();
    print_reply(reply, buffer);
    let _ = buffer.push(b'\n');
}

/// Answers a call, and writes its reply. Tells whether the call was refused.
#[inline(always)]
pub fn run_call<T: Threads + Sync, D: Disk, K: Sink, L: Ledger>(
    threads: &T,
    core: &mut Machine<D>,
    buffer: &mut Vec<u8>,
    call: Call,
    sink: &mut K,
    steps: &mut Steps<L>,
) -> Result<bool, Status>
    requires room { REPLY_ROOM ≤ vec_capacity buffer.old }
    requires script { IsOfScript call }
    ensures ran { CallRan ⟦<D as Disk>⟧ core.old call core.new (K.held sink.old) (K.held sink.new) result }
    ensures room { REPLY_ROOM ≤ vec_capacity buffer.new }
    ensures cause { result ≡ Err Status.WriteFault → Rose (K.faults sink.old) (K.faults sink.new) }
    ensures calm { result ≢ Err Status.WriteFault → K.faults sink.new ≡ K.faults sink.old }
{
    let reply = core.answer(threads, call, steps);
    let refused = is_refused(&reply);
    print_line(reply, buffer);
    match write_all(sink, buffer) {
        Ok(()) => Ok(refused),
        Err(_) => Err(Status::WriteFault),
    }
}

/// Answers the calls of a collection in turn, up to the first that is refused. Each reply is written
/// before the next call.
#[inline(never)]
pub fn run_collection<T: Threads + Sync, D: Disk, K: Sink, L: Ledger>(
    threads: &T,
    core: &mut Machine<D>,
    buffer: &mut Vec<u8>,
    workers: u32,
    sink: &mut K,
    steps: &mut Steps<L>,
) -> Result<(), Status>
    requires room { REPLY_ROOM ≤ vec_capacity buffer.old }
    requires workers { AreWorkers workers }
    ensures ran { CollectionRan ⟦<D as Disk>⟧ core.old workers core.new (K.held sink.old) (K.held sink.new) result }
    ensures room { REPLY_ROOM ≤ vec_capacity buffer.new }
    ensures cause { result ≡ Err Status.WriteFault → Rose (K.faults sink.old) (K.faults sink.new) }
    ensures calm { result ≢ Err Status.WriteFault → K.faults sink.new ≡ K.faults sink.old }
{
    core.stands();
    let pages = core.pages();
    let mut place: u64 = 0;
    'calls: while let Some(call) = collection_call(pages, workers, place) {
        match run_call(threads, core, buffer, call, sink, steps) {
            Ok(false) => place += 1,
            Ok(true) => return Ok(()),
            Err(status) => return Err(status),
        }
    }
    Ok(())
}
