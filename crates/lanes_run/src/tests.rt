//! Whole scripts of lanes over sources, sinks and disks in memory.
use crate::top_lanes;
use disk_trait::{Gate, MeetGate, MemDisk, MemSink, MemSource, OpenGate};
use std::alloc::Global;
use std::process::Abort;
use std::str;
use std::sync::Wait;
use std::test::Fail;
use std::thread::Threads;
use store_run::{Status, top};

/// The bytes of a store of 2 pages.
const DISK_BYTES: u64 = 527_360;

/// A disk in memory with a fresh store of 2 pages.
fn fresh_store<R: AllocGlobal + Threads + Sync + Abort>(rt: &R) -> Result<MemDisk, Fail> {
    let alloc = rt.alloc();
    let words = vec![in alloc;
        String::from_str(alloc, "make")?,
        String::from_str(alloc, "2")?,
    ]?;
    let mut source = MemSource::new(Vec::new(alloc), Vec::new(alloc));
    let mut sink = MemSink::new(alloc, 0, Vec::new(alloc))?;
    let disk = MemDisk::new(alloc, DISK_BYTES, Vec::new(alloc))?;
    let (status, disk) = top(rt, alloc, &words, &mut source, &mut sink, disk);
    assert_eq!(rt; status, Status::Done);
    Ok(disk)
}

/// Runs a script on this disk. Answers how it ended and what was written, with room for so much.
fn run_on<R: AllocGlobal + Threads + Wait + Sync, G: Gate>(
    rt: &R,
    script: &str,
    room: u64,
    disk: MemDisk,
    gate: &G,
) -> Result<(Status, Vec<u8>, MemDisk), Fail> {
    let alloc = rt.alloc();
    let words = vec![in alloc; String::from_str(alloc, "lanes")?]?;
    let mut source = MemSource::new(script.as_bytes().to_vec(alloc)?, Vec::new(alloc));
    let mut sink = MemSink::new(alloc, room, Vec::new(alloc))?;
    let (status, disk) = top_lanes(rt, alloc, &words, &mut source, &mut sink, disk, gate);
    Ok((status, sink.bytes().to_vec(alloc)?, disk))
}

#[derive(Clone, Copy)]
struct Example {
    script: &'static str,
    status: Status,
    written: &'static str,
}

const EXAMPLES: [Example; 5] = [
    Example {
        script: "",
        status: Status::Done,
        written: "",
    },
    Example {
        script: "1 begin 1\n1 collect 1\n",
        status: Status::Done,
        written: "1 begin 1: ok\n1 open: cut 1\n1 copy 0: ok\n1 copy 1: ok\n1 close: ok\n1 mark 1: ok\n1 sweep 0: freed none\n1 sweep 1: freed none\n1 end: ok\n",
    },
    Example {
        script: "# a note\n1 begin 1\n\n1 num 1 0.0.1\n1 begin 1",
        status: Status::Done,
        written: "1 begin 1: ok\n1 num 1 0.0.1: num 0\n1 begin 1: already open\n",
    },
    Example {
        script: "1 open",
        status: Status::BadLine { line: 1, column: 3 },
        written: "",
    },
    Example {
        script: "1 begin 1\n\n17 begin 2\n1 open",
        status: Status::BadLine { line: 3, column: 1 },
        written: "",
    },
];

#[test]
fn a_lane_runs_its_lines_in_order(rt: HostRuntime) -> Result<(), Fail> {
    for example in EXAMPLES {
        let (status, bytes, _disk) = run_on(
            &rt,
            example.script,
            512,
            fresh_store(&rt)?,
            &OpenGate,
        )?;
        assert_eq!(rt; status, example.status);
        assert!(rt; bytes.as_slice() == example.written.as_bytes());
    }
    let (status, bytes, _disk) = run_on(
        &rt,
        "1 begin 1\n1 commit 1\n",
        20,
        fresh_store(&rt)?,
        &OpenGate,
    )?;
    assert_eq!(rt; status, Status::WriteFault);
    assert!(rt; bytes.as_slice() == b"1 begin 1: ok\n1 comm".as_slice());
    Ok(())
}

#[test]
fn three_lanes_meet_and_write_one_chronicle(rt: HostRuntime) -> Result<(), Fail> {
    let script = "1 begin 1\n1 new 1 1\n1 commit 1\n2 begin 2\n2 abort 2\n3 collect 2\n";
    let gate = MeetGate::new(3, 10_000_000);
    let (status, bytes, _disk) = run_on(&rt, script, 512, fresh_store(&rt)?, &gate)?;
    assert_eq!(rt; status, Status::Done);
    assert!(rt; gate.met());
    let text = str::from_utf8(&bytes).map_err(|_| "text")?;
    assert_eq!(rt; text.lines().count(), 13);
    Ok(())
}

/// This text so often.
fn repeated(alloc: Global, text: &str, count: u32) -> Result<String, Fail> {
    let mut all = String::new(alloc);
    for _ in 0..count {
        all.push_str(text)?;
    }
    Ok(all)
}

#[test]
fn a_long_chronicle_is_written_whole(rt: HostRuntime) -> Result<(), Fail> {
    let script = repeated(rt.alloc(), "1 begin 1\n1 abort 1\n", 3_000)?;
    let chronicle = repeated(rt.alloc(), "1 begin 1: ok\n1 abort 1: ok\n", 3_000)?;
    let (status, bytes, _disk) = run_on(&rt, &script, 100_000, fresh_store(&rt)?, &OpenGate)?;
    assert_eq!(rt; status, Status::Done);
    assert!(rt; bytes.as_slice() == chronicle.as_bytes());
    let (status, bytes, _disk) = run_on(&rt, &script, 70_000, fresh_store(&rt)?, &OpenGate)?;
    assert_eq!(rt; status, Status::WriteFault);
    assert_eq!(rt; bytes.len(), 70_000);
    assert!(rt; chronicle.as_bytes().starts_with(&bytes));
    Ok(())
}
