//! Runs of the generator, and the stores that they leave.
use super::{commanded, run_on, trial_of, words_of};
use crate::{Status, top};
use disk_trait::{MemDisk, MemSink, MemSource};
use std::process::Abort;
use std::test::Fail;
use std::thread::Threads;

/// The bytes of a store of 16 pages.
const RUN_BYTES: u64 = 541_696;

/// Reads what the root refers to.
const READS_ROOT: &str =
    "begin 1\nget 1 0.0.1 0\nget 1 0.0.1 1\nget 1 0.0.1 2\nget 1 0.0.1 3\nnum 1 0.0.1\n";

/// Makes a run on a fresh disk, compares its line, and gives the disk.
fn generated<R: AllocGlobal + Threads + Sync + Abort>(
    rt: &R,
    from: &str,
    count: &str,
    line: &[u8],
) -> Result<MemDisk, Fail> {
    let alloc = rt.alloc();
    let words = words_of(alloc, &["gen", from, count])?;
    let mut source = MemSource::new(Vec::new(alloc), Vec::new(alloc));
    let mut sink = MemSink::new(alloc, 256, Vec::new(alloc))?;
    let disk = MemDisk::new(alloc, RUN_BYTES, Vec::new(alloc))?;
    let (status, disk) = top(rt, alloc, &words, &mut source, &mut sink, disk);
    assert_eq!(rt; status, Status::Done);
    assert!(rt; sink.bytes() == line);
    Ok(disk)
}

#[test]
fn runs_write_what_they_counted(rt: HostRuntime) -> Result<(), Fail> {
    generated(&rt, "1", "0", b"rounds 0 commits 0 full 0 freed 0 cuts 0\n")?;
    generated(&rt, "1", "1", b"rounds 1 commits 1 full 0 freed 0 cuts 0\n")?;
    generated(
        &rt,
        "7",
        "1000",
        b"rounds 1000 commits 1000 full 0 freed 985 cuts 31\n",
    )?;
    Ok(())
}

#[test]
fn a_run_is_the_same_each_time(rt: HostRuntime) -> Result<(), Fail> {
    for _ in 0..2 {
        let disk = generated(
            &rt,
            "1",
            "64",
            b"rounds 64 commits 64 full 0 freed 60 cuts 2\n",
        )?;
        run_on(
            &rt,
            &trial_of(READS_ROOT),
            disk,
            Status::Done,
            b"ok\nref 5.3.1\nref 3.0.2\nref 6.3.1\nref 12.3.1\nnum 0\n",
        )?;
    }
    Ok(())
}

#[test]
fn a_run_of_too_many_rounds_is_no_command(rt: HostRuntime) -> Result<(), Fail> {
    let disk = MemDisk::new(rt.alloc(), RUN_BYTES, Vec::new(rt.alloc()))?;
    let (status, disk) = commanded(&rt, &["gen", "1", "65537"], disk)?;
    assert_eq!(rt; status, Status::Usage);
    assert_eq!(rt; disk.calls(), 0);
    Ok(())
}

#[test]
fn a_run_wants_room_for_its_store(rt: HostRuntime) -> Result<(), Fail> {
    let disk = MemDisk::new(rt.alloc(), RUN_BYTES - 1, Vec::new(rt.alloc()))?;
    let too_short = Status::TooShort {
        len: RUN_BYTES - 1,
        need: RUN_BYTES,
    };
    assert_eq!(rt; commanded(&rt, &["gen", "1", "1"], disk)?.0, too_short);
    Ok(())
}
