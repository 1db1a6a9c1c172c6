//! Failing calls of the fakes, crashes, and the adapters over std's readers, writers and files.
ghost use Rattle.std.specs.Prelude.{◌≡◌};

use crate::{
    Disk, Failed, FileDisk, Gate, MeetGate, MemDisk, MemSink, MemSource, OpenGate, Sink, Source,
    StdSink, StdSource,
};
use std::fs::{File, OpenFile, OpenOptions};
use std::process::Abort;
use std::rt::Files;
use std::test::Fail;
use std::{fs, io};

// Reads once, and compares what came with these bytes.
fn read_once<S: Source>(rt: &impl Abort, source: &mut S, want: Result<&[u8], Failed>) {
    let mut out = [0; 4];
    match (source.read(&mut out), want) {
        (Ok(count), Ok(bytes)) => assert!(rt; out.split_at(count).0 == bytes),
        (got, want) => assert_eq!(rt; got.is_err(), want.is_err()),
    }
}

#[test]
fn a_source_in_memory_fails_where_it_is_told(rt: HostRuntime) -> Result<(), Fail> {
    let bytes = Vec::from_slice(rt.alloc(), b"abcdef")?;
    let mut source = MemSource::new(bytes, vec![in rt.alloc(); 2, 4]?);
    read_once(&rt, &mut source, Ok(b"abcd"));
    read_once(&rt, &mut source, Err(Failed));
    read_once(&rt, &mut source, Ok(b"ef"));
    read_once(&rt, &mut source, Err(Failed));
    read_once(&rt, &mut source, Ok(b""));
    Ok(())
}

#[test]
fn a_sink_in_memory_fails_where_it_is_told(rt: HostRuntime) -> Result<(), Fail> {
    let mut sink = MemSink::new(rt.alloc(), 5, vec![in rt.alloc(); 2]?)?;
    assert_eq!(rt; sink.write(b"abc"), Ok(3));
    assert_eq!(rt; sink.write(b"def"), Err(Failed));
    assert_eq!(rt; sink.write(b"def"), Ok(2));
    assert_eq!(rt; sink.write(b"f"), Ok(0));
    assert!(rt; sink.bytes() == b"abcde".as_slice());
    Ok(())
}

#[test]
fn a_source_reads_from_a_reader(rt: HostRuntime) {
    let mut source = StdSource::on(b"abcdef".as_slice());
    read_once(&rt, &mut source, Ok(b"abcd"));
    read_once(&rt, &mut source, Ok(b"ef"));
    read_once(&rt, &mut source, Ok(b""));
}

#[test]
fn a_sink_writes_to_a_writer(rt: HostRuntime) -> Result<(), Fail> {
    let mut out = Vec::new(rt.alloc());
    let mut sink = StdSink::on(&mut out);
    assert_eq!(rt; sink.write(b"abc"), Ok(3));
    assert_eq!(rt; sink.write(b"de"), Ok(2));
    drop(sink);
    assert!(rt; out.as_slice() == b"abcde".as_slice());
    Ok(())
}

// The four bytes that a disk holds.
fn held<D: Disk>(disk: &mut D) -> Result<[u8; 4], Failed>
    ensures { D.size disk.new ≡ D.size disk.old }
{
    let mut out = [0; 4];
    if disk.len() == 4 {
        disk.read_at(0, &mut out)?;
    }
    Ok(out)
}

// One write that is safe, and two that overlap and aren't.
fn written(rt: &impl AllocGlobal) -> Result<MemDisk, Fail> {
    let alloc = rt.alloc();
    let mut disk = MemDisk::new(alloc, 4, Vec::new(alloc))?;
    disk.write_at(0, b"ab")?;
    disk.sync()?;
    disk.write_at(1, b"cd")?;
    disk.write_at(2, b"ef")?;
    Ok(disk)
}

#[test]
fn a_crash_leaves_what_its_number_says(rt: HostRuntime) -> Result<(), Fail> {
    let left: [[u8; 4]; 9] = [
        [97, 98, 0, 0],
        [97, 99, 101, 102],
        [97, 173, 173, 173],
        [97, 99, 100, 0],
        [97, 99, 101, 102],
        [97, 99, 173, 173],
        [97, 99, 101, 102],
        [97, 99, 101, 102],
        [97, 99, 101, 102],
    ];
    for (pick, want) in left.iter().enumerate() {
        let mut disk = written(&rt)?.crash(pick as u64)?;
        assert!(rt; held(&mut disk)? == *want, "pick {pick}");
    }
    Ok(())
}

#[test]
fn a_disk_in_memory_fails_where_it_is_told(rt: HostRuntime) -> Result<(), Fail> {
    let alloc = rt.alloc();
    let mut disk = MemDisk::new(alloc, 4, vec![in alloc; 1, 3, 5]?)?;
    assert_eq!(rt; held(&mut disk), Err(Failed));
    assert_eq!(rt; held(&mut disk), Ok([0; 4]));
    assert_eq!(rt; disk.write_at(0, b"ab"), Err(Failed));
    assert_eq!(rt; disk.write_at(0, b"cd"), Ok(()));
    assert_eq!(rt; disk.sync(), Err(Failed));
    assert_eq!(rt; disk.sync(), Ok(()));
    assert_eq!(rt; (disk.calls(), disk.faults(), disk.lacks()), (6, 3, 0));
    assert_eq!(rt; held(&mut disk.crash(0)?), Ok([99, 100, 0, 0]));
    Ok(())
}

// A file of this name for reading and writing.
fn file_of<R: Files<File = File>>(rt: &R, name: &str) -> io::Result<File> {
    OpenOptions::new()
        .read(true)
        .write(true)
        .create(true)
        .open(rt, name)
}

#[test]
fn a_disk_over_a_file_holds_what_was_written(rt: HostRuntime) -> Result<(), Fail> {
    let name = "file_disk.test";
    let file = file_of(&rt, name)?;
    file.set_len(4)?;
    let mut disk = FileDisk::on(file, 4);
    assert_eq!(rt; disk.write_at(1, b"abc"), Ok(()));
    assert_eq!(rt; disk.sync(), Ok(()));
    drop(disk);
    let mut again = FileDisk::on(file_of(&rt, name)?, 8);
    let mut out = [0; 4];
    assert_eq!(rt; again.read_at(0, &mut out), Ok(()));
    assert_eq!(rt; out, [0, 97, 98, 99]);
    assert_eq!(rt; again.read_at(2, &mut out), Err(Failed));
    assert_eq!(rt; (again.len(), again.faults()), (8, 1));
    fs::remove_file(&rt, name)?;
    Ok(())
}

// Two callers at a gate for so many, which looks so often.
fn two_pass(count: u32, limit: u64) -> bool {
    let gate = MeetGate::new(count, limit);
    gate.pass(1, 1);
    gate.pass(2, 1);
    gate.met()
}

#[test]
fn callers_meet_at_a_gate_or_give_up(rt: HostRuntime) {
    assert!(rt; two_pass(1, 10));
    // The first gives up before the second comes.
    assert!(rt; !two_pass(2, 10));
    assert!(rt; !two_pass(3, 10));
    // Only the turn 1 is kept.
    let gate = MeetGate::new(1, 10);
    gate.pass(1, 2);
    assert!(rt; !gate.met());
    OpenGate.pass(1, 1);
}
