//! A collected chain, with each call of the disk failing: from then on, before a crash, and alone.
use super::examples::calls_before;
use super::{DISK_BYTES, commanded, words_of};
use crate::{Status, top};
use disk_trait::{MemDisk, MemSink, MemSource};
use std::alloc::Global;
use std::process::Abort;
use std::test::Fail;
use std::thread::Threads;

/// A chain is made, unlinked and collected.
const CHAIN: &str =
    "begin 1\nnew 1 1\nnew 1 1\nnew 1 1\nset 1 1.0.1 0 1.1.1\nset 1 1.1.1 0 1.2.1\nset 1 0.0.1 0 1.0.1\ncommit 1\nbegin 2\nnil 2 0.0.1 0\ncommit 2\ncollect 1\nbegin 3\nnew 3 1\n";

/// The same, and then the store is opened again and collected.
const CHAIN_AND_AGAIN: &str =
    "begin 1\nnew 1 1\nnew 1 1\nnew 1 1\nset 1 1.0.1 0 1.1.1\nset 1 1.1.1 0 1.2.1\nset 1 0.0.1 0 1.0.1\ncommit 1\nbegin 2\nnil 2 0.0.1 0\ncommit 2\ncollect 1\nbegin 3\nnew 3 1\nreopen\ncollect 1\n";

/// More calls than the script makes.
const MANY_CALLS: u64 = 40;

/// What a reopening answers for so many commits.
const OPENED: [&[u8]; 4] = [b"open 0\n", b"open 1\n", b"open 2\n", b"open 3\n"];

/// How a script ended, what it wrote and the disk.
#[derive(Drop)]
struct Ended {
    status: Status,
    sink: MemSink,
    disk: MemDisk,
}

fn run<R: AllocGlobal + Threads + Sync>(
    rt: &R,
    script: &str,
    disk: MemDisk,
) -> Result<Ended, Fail> {
    let alloc = rt.alloc();
    let words = words_of(alloc, &["run"])?;
    let mut source = MemSource::new(script.as_bytes().to_vec(alloc)?, Vec::new(alloc));
    let mut sink = MemSink::new(alloc, 1024, Vec::new(alloc))?;
    let (status, disk) = top(rt, alloc, &words, &mut source, &mut sink, disk);
    Ok(Ended { status, sink, disk })
}

/// A fresh store of 2 pages on a disk of which these calls fail.
fn store_on<R: AllocGlobal + Threads + Sync + Abort>(
    rt: &R,
    fail: Vec<u64>,
) -> Result<MemDisk, Fail> {
    let disk = MemDisk::new(rt.alloc(), DISK_BYTES, fail)?;
    let (status, disk) = commanded(rt, &["make", "2"], disk)?;
    assert_eq!(rt; status, Status::Done);
    Ok(disk)
}

/// Calls from this one on.
fn calls_from(alloc: Global, first: u64) -> Result<Vec<u64>, Fail> {
    let mut calls = Vec::with_capacity(alloc, 40)?;
    for later in 0..MANY_CALLS {
        calls.push(first.saturating_add(later))?;
    }
    Ok(calls)
}

/// Whether these bytes have that line.
fn has_line(bytes: &[u8], line: &[u8]) -> bool {
    for at in 0..bytes.len() {
        if bytes.split_at(at).1.starts_with(line) {
            return true;
        }
    }
    false
}

/// How many commits were answered.
fn acknowledged(bytes: &[u8]) -> usize {
    if has_line(bytes, b"commit 2\n") {
        2
    } else if has_line(bytes, b"commit 1\n") {
        1
    } else {
        0
    }
}

#[test]
fn a_stop_at_each_call_leaves_what_was_acknowledged(rt: HostRuntime) -> Result<(), Fail> {
    let alloc = rt.alloc();
    let before = calls_before(&rt)?;
    let whole = run(&rt, CHAIN, store_on(&rt, Vec::new(alloc))?)?
        .disk
        .calls();
    for call in before..whole {
        for pick in 0..6u64 {
            let fail = calls_from(alloc, call.saturating_add(1))?;
            let stopped = run(&rt, CHAIN, store_on(&rt, fail)?)?;
            assert_eq!(rt; stopped.status, Status::DiskFault);
            let commits = acknowledged(stopped.sink.bytes());
            let again = run(&rt, "reopen\n", stopped.disk.crash(pick)?)?;
            assert_eq!(rt; again.status, Status::Done);
            let opened = again.sink.bytes();
            let next = commits.saturating_add(1);
            assert!(rt; Some(&opened) == OPENED.get(commits) || Some(&opened) == OPENED.get(next));
        }
    }
    Ok(())
}

#[test]
fn one_failing_call_is_mended_by_a_reopening(rt: HostRuntime) -> Result<(), Fail> {
    let alloc = rt.alloc();
    let before = calls_before(&rt)?;
    let whole = run(&rt, CHAIN, store_on(&rt, Vec::new(alloc))?)?
        .disk
        .calls();
    for call in before..whole {
        let fail = vec![in alloc; call.saturating_add(1)]?;
        let ended = run(&rt, CHAIN_AND_AGAIN, store_on(&rt, fail)?)?;
        assert_eq!(rt; ended.status, Status::Done);
        assert!(rt; has_line(ended.sink.bytes(), b"disk fault\n"));
        assert!(rt; ended.sink.bytes().ends_with(b"\nok\n"));
    }
    Ok(())
}
