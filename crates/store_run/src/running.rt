//! Running a script, line by line, as it is read.
ghost use Rattle.std.specs.Prelude.{◌≡◌, ◌≢◌, ◌+◌, ◌≤◌, ◌<◌, ◌-◌, ◌^◌, [], Err, length, vec_len, vec_capacity};
ghost use Rattle.script_lang.specs.Words.{Without};
ghost use Rattle.disk_trait.specs.Causes.{Rose};
ghost use Rattle.store_run.specs.Ran.{end_status};
ghost use Rattle.store_run.specs.Lines.{ScriptLineRan, FrontRan, PieceRan, EndRan, ScriptRan};

use crate::calls::{REPLY_ROOM, run_call, run_collection};
use crate::meaning::meaning_of;
use crate::pieces::{PIECE_LIMIT, SCRIPT_LIMIT, UNREAD_ROOM, Unread};
use crate::status::Status;
use disk_trait::{Disk, Sink, Source};
use object_graph::Steps;
use script_lang::{LINE_LIMIT, Line, next_line};
use std::sync::ledger::Ledger;
use std::thread::Threads;
use store_machine::Machine;

/// Runs the line of this number, and writes its replies.
#[inline(always)]
fn run_line<T: Threads + Sync, D: Disk, K: Sink, L: Ledger>(
    threads: &T,
    core: &mut Machine<D>,
    buffer: &mut Vec<u8>,
    line: &[u8],
    number: u64,
    sink: &mut K,
    steps: &mut Steps<L>,
) -> Result<(), Status>
    requires { REPLY_ROOM ≤ vec_capacity buffer.old }
    ensures ran { ScriptLineRan ⟦<D as Disk>⟧ core.old line.now core.new (K.held sink.old) (K.held sink.new) number result }
    ensures room { REPLY_ROOM ≤ vec_capacity buffer.new }
    ensures cause { result ≡ Err Status.WriteFault → Rose (K.faults sink.old) (K.faults sink.new) }
    ensures calm { result ≢ Err Status.WriteFault → K.faults sink.new ≡ K.faults sink.old }
{
    match meaning_of(line) {
        Err(column) => Err(Status::BadLine {
            line: number,
            column,
        }),
        Ok(Line::Note) => {
            core.stands();
            Ok(())
        }
        Ok(Line::One { call }) => match run_call(threads, core, buffer, call, sink, steps) {
            Ok(_) => Ok(()),
            Err(status) => Err(status),
        },
        Ok(Line::Collect { workers }) => {
            run_collection(threads, core, buffer, workers, sink, steps)
        }
    }
}

/// Runs the whole lines of some bytes in turn, up to the first that stops it. So many lines came
/// before. Answers how many there are now, and how many bytes stand behind the last.
fn run_lines<T: Threads + Sync, D: Disk, K: Sink, L: Ledger>(
    threads: &T,
    core: &mut Machine<D>,
    buffer: &mut Vec<u8>,
    bytes: &[u8],
    before: u64,
    sink: &mut K,
    steps: &mut Steps<L>,
) -> Result<(u64, usize), Status>
    requires room { REPLY_ROOM ≤ vec_capacity buffer.old }
    requires few { before + length bytes.now < 2 ^ 64 }
    ensures ran { FrontRan ⟦<D as Disk>⟧ core.old bytes.now core.new (K.held sink.old) (K.held sink.new) before result }
    ensures room { REPLY_ROOM ≤ vec_capacity buffer.new }
    ensures cause { result ≡ Err Status.WriteFault → Rose (K.faults sink.old) (K.faults sink.new) }
    ensures calm { result ≢ Err Status.WriteFault → K.faults sink.new ≡ K.faults sink.old }
{
    core.stands();
    let mut rest = bytes;
    let mut number = before;
    'lines: while let Some((line, after)) = next_line(rest) {
        if line.len() == rest.len() {
            return Ok((number, rest.len()));
        }
        match run_line(threads, core, buffer, line, number + 1, sink, steps) {
            Ok(()) => {}
            Err(status) => return Err(status),
        }
        number += 1;
        rest = after;
    }
    Ok((number, rest.len()))
}

/// Runs the whole lines of what is unread, and keeps what stands behind them. It stops where that
/// is too long for a line already.
fn run_piece<T: Threads + Sync, D: Disk, K: Sink, L: Ledger>(
    threads: &T,
    core: &mut Machine<D>,
    buffer: &mut Vec<u8>,
    unread: &mut Unread,
    before: u64,
    sink: &mut K,
    steps: &mut Steps<L>,
) -> Result<u64, Status>
    requires room { REPLY_ROOM ≤ vec_capacity buffer.old }
    requires few { before + vec_len unread.old.ahead < 2 ^ 64 - 1 }
    ensures ran { PieceRan ⟦<D as Disk>⟧ core.old unread.old.ahead.items core.new (K.held sink.old) (K.held sink.new) before unread.new.ahead.items result }
    ensures taken { unread.new.taken ≡ unread.old.taken }
    ensures unread_room { vec_capacity unread.new.ahead ≡ vec_capacity unread.old.ahead }
    ensures room { REPLY_ROOM ≤ vec_capacity buffer.new }
    ensures cause { result ≡ Err Status.WriteFault → Rose (K.faults sink.old) (K.faults sink.new) }
    ensures calm { result ≢ Err Status.WriteFault → K.faults sink.new ≡ K.faults sink.old }
{
    match run_lines(threads, core, buffer, &unread.ahead, before, sink, steps) {
        Err(status) => Err(status),
        Ok((number, left)) => {
            unread.keep_last(left);
            if left > LINE_LIMIT {
                return Err(Status::BadLine {
                    line: number + 1,
                    column: LINE_LIMIT as u32 + 1,
                });
            }
            Ok(number)
        }
    }
}

/// How a script ends that was run to its end.
fn ended<D: Disk>(core: &Machine<D>) -> Status
    ensures { result ≡ end_status core.now.world.broken }
{
    match core.broken() {
        None => Status::Done,
        Some(_) => Status::DiskFault,
    }
}

/// Runs a last line that lacks its end, if there is one.
#[inline(never)]
fn run_end<T: Threads + Sync, D: Disk, K: Sink, L: Ledger>(
    threads: &T,
    core: &mut Machine<D>,
    buffer: &mut Vec<u8>,
    line: &[u8],
    before: u64,
    sink: &mut K,
    steps: &mut Steps<L>,
) -> Status
    requires room { REPLY_ROOM ≤ vec_capacity buffer.old }
    requires few { before < 2 ^ 64 - 1 }
    requires unended { Without 10 line.now }
    ensures ran { EndRan ⟦<D as Disk>⟧ core.old line.now core.new (K.held sink.old) (K.held sink.new) before result }
    ensures room { REPLY_ROOM ≤ vec_capacity buffer.new }
    ensures cause { result ≡ Status.WriteFault → Rose (K.faults sink.old) (K.faults sink.new) }
    ensures calm { result ≢ Status.WriteFault → K.faults sink.new ≡ K.faults sink.old }
{
    if line.is_empty() {
        core.stands();
        return ended(core);
    }
    match run_line(threads, core, buffer, line, before + 1, sink, steps) {
        Ok(()) => ended(core),
        Err(status) => status,
    }
}

/// Runs a script as it is read, up to its end or the first thing that stops it.
pub fn run_script<T: Threads + Sync, D: Disk, S: Source, K: Sink, L: Ledger>(
    threads: &T,
    core: &mut Machine<D>,
    buffer: &mut Vec<u8>,
    unread: &mut Unread,
    source: &mut S,
    sink: &mut K,
    steps: &mut Steps<L>,
) -> Status
    requires room { REPLY_ROOM ≤ vec_capacity buffer.old }
    requires unread_room { UNREAD_ROOM ≤ vec_capacity unread.old.ahead }
    requires nothing_ahead { unread.old.ahead.items ≡ [] }
    requires nothing_taken { unread.old.taken ≡ 0 }
    ensures ran { ScriptRan ⟦<D as Disk>⟧ result core.old core.new (S.left source.old) (S.left source.new) (K.held sink.old) (K.held sink.new) }
    ensures read_fault { result ≡ Status.ReadFault → Rose (S.faults source.old) (S.faults source.new) }
    ensures read_calm { result ≢ Status.ReadFault → S.faults source.new ≡ S.faults source.old }
    ensures write_fault { result ≡ Status.WriteFault → Rose (K.faults sink.old) (K.faults sink.new) }
    ensures write_calm { result ≢ Status.WriteFault → K.faults sink.new ≡ K.faults sink.old }
{
    core.stands();
    let mut number: u64 = 0;
    let mut room = [0; PIECE_LIMIT];
    'pieces: loop {
        match unread.read_piece(source, &mut room) {
            Err(status) => return status,
            Ok(count) => {
                if count == 0 {
                    return run_end(threads, core, buffer, &unread.ahead, number, sink, steps);
                }
            }
        }
        match run_piece(threads, core, buffer, unread, number, sink, steps) {
            Ok(after) => number = after,
            Err(status) => return status,
        }
    }
}
