//! The store's program. Its words are the name of the store's file, and then a command
//! (FORMATS.md, "Commands"). The name `-` stands for a fresh store in memory.
#![tactic(auto)]

ghost use Rattle.std.specs.Prelude.{◌≡◌, ◌≢◌, ◌<◌, ◌↔◌, codes, false, IfOk, IsTrue, vec_len};

mod console;
mod disks;
#[cfg(test)]
mod tests;

use console::{Answering, Asking, Held};
use disk_trait::{Disk, OpenGate, Sink, Source, StdSink, StdSource};
use disks::{fresh_store, open_file};
use lanes_run::top_lanes;
use std::alloc::Global;
use std::cell::RefCell;
use std::fs::File;
use std::io::ErrorKind;
use std::process::ExitCode;
use std::rt::{Env, Files};
use std::sync::Wait;
use std::thread::Threads;
use std::{env, io};
use store_run::{Status, top};

/// The code with which the program ends where the file can't be opened or made.
const NO_FILE: u8 = 12;

/// The store's file can't be opened or made.
struct NoFile;

fn main(rt: HostRuntime) -> ExitCode {
    let ended = match command_line(&rt) {
        Ok((name, words)) => run_command(&rt, &name, &words),
        Err(status) => Ok(status),
    };
    match ended {
        Ok(status) => {
            // Where there is no memory for the text, the code stands without it.
            if let Ok(text) = status.text(rt.alloc()) {
                let _ = eprint!(rt; "{text}");
            }
            ExitCode::from(status.code())
        }
        Err(NoFile) => {
            let _ = eprint!(rt; "store: no file\n");
            ExitCode::from(NO_FILE)
        }
    }
}

/// The name of the store's file, and the words after it, of which there is one at least.
fn command_line<R: Env + AllocGlobal>(rt: &R) -> Result<(String, Vec<String>), Status>
    ensures { IfOk result (λ line. 0 < vec_len line.1) }
{
    let mut args = match env::args(rt) {
        Ok(args) => args,
        Err(error) if error.kind() == ErrorKind::OutOfMemory => return Err(Status::Memory),
        Err(_) => return Err(Status::Usage),
    };
    let _program = args.next();
    let Some(name) = args.next() else {
        return Err(Status::Usage);
    };
    let mut words = Vec::new(rt.alloc());
    for word in args {
        words.push(word).map_err(|_| Status::Memory)?;
    }
    if words.is_empty() {
        return Err(Status::Usage);
    }
    Ok((name, words))
}

/// Runs the command on the disk of that name.
fn run_command<R: AllocGlobal + Input + Print + Threads + Wait + Sync + Files<File = File>>(
    rt: &R,
    name: &str,
    words: &[String],
) -> Result<Status, NoFile> {
    if is_memory(name) {
        return Ok(match fresh_store(rt) {
            Ok(disk) => run_on(rt, words, disk),
            Err(status) => status,
        });
    }
    match open_file(rt, name, begins_with(words, "make")) {
        Ok(disk) => Ok(run_on(rt, words, disk)),
        Err(_) => Err(NoFile),
    }
}

/// Whether the name stands for a store in memory.
fn is_memory(name: &str) -> bool
    ensures { IsTrue result ↔ (name.now ≡ codes "-") }
{
    name == "-"
}

/// Whether this is the first word.
fn begins_with(words: &[String], first: &str) -> bool {
    match words.first() {
        Some(word) => word.as_str() == first,
        None => false,
    }
}

/// Runs the command between standard input and standard output. Replies go out in large pieces, and
/// always before more input is read.
fn run_on<R: AllocGlobal + Input + Print + Threads + Wait + Sync, D: Disk + Drop + Send>(
    rt: &R,
    words: &[String],
    disk: D,
) -> Status {
    let alloc = rt.alloc();
    let Ok(held) = Held::on(alloc, io::writer(rt)) else {
        return Status::Memory;
    };
    let held = RefCell::new(held);
    let mut source = StdSource::on(Asking {
        reader: rt.reader(),
        held: &held,
    });
    let mut sink = StdSink::on(Answering { held: &held });
    let (status, _disk) = run_words(rt, alloc, words, &mut source, &mut sink, disk);
    drop(source);
    drop(sink);
    let mut held = held.into_inner();
    held.send();
    ended(status, held.has_failed())
}

// Runs the command; lanes wait for nobody at their gate.
fn run_words<R: Threads + Wait + Sync, D: Disk + Send, S: Source, K: Sink>(
    rt: &R,
    alloc: Global,
    words: &[String],
    source: &mut S,
    sink: &mut K,
    disk: D,
) -> (Status, D) {
    if begins_with(words, "lanes") {
        top_lanes(rt, alloc, words, source, sink, disk, &OpenGate)
    } else {
        top(rt, alloc, words, source, sink, disk)
    }
}

// How the command ends where the last replies couldn't be written out.
fn ended(status: Status, failed: bool) -> Status
    ensures done { status ≡ Status.Done → IsTrue failed → result ≡ Status.WriteFault }
    ensures calm { failed ≡ false → result ≡ status }
    ensures other { status ≢ Status.Done → result ≡ status }
{
    match status {
        Status::Done if failed => Status::WriteFault,
        other => other,
    }
}
