//! Runs over a store in memory.
ghost use Rattle.std.specs.Prelude.{◌≡◌, ◌≤◌, ◌<◌};
ghost use Rattle.generator.specs.Rounds.{most_rounds};

use crate::{PAGES, SUMMARY_ROOM, generate};
use cut_core::Core;
use disk_trait::{Disk, MemDisk};
use object_graph::{Memory, Steps};
use recovery::make;
use std::alloc::Global;
use std::marker::Brand;
use std::process::Abort;
use std::sync::ledger::{Blank, Ledger};
use std::test::Fail;
use std::thread::Threads;
use store_machine::Machine;

/// The bytes of a store of a run.
const SIZE: u64 = 541_696;

/// The line of a run, and its disk.
fn run_of<T: Threads + Sync, L: Ledger>(
    threads: &T,
    alloc: Global,
    from: u64,
    count: u64,
    blank: Blank,
) -> Result<(Vec<u8>, MemDisk), Memory>
    requires name { blank.name ≡ L.name }
    requires parts { blank.parts ≡ L.parts }
    requires some { 0 < blank.parts }
    requires few { count ≤ most_rounds }
{
    let mut disk = MemDisk::new(alloc, SIZE, Vec::new(alloc))?;
    let Ok(mut line) = Vec::with_capacity(alloc, SUMMARY_ROOM) else {
        return Err(Memory);
    };
    let Ok(()) = make(alloc, &mut disk, u64::from(PAGES)) else {
        return Err(Memory);
    };
    let Ok(core) = Core::start(alloc, disk) else {
        return Err(Memory);
    };
    if core.pages() != PAGES || core.commits() != 0 {
        return Err(Memory);
    }
    let mut machine = Machine::of(alloc, core);
    let mut steps: Steps<L> = Steps::new(blank);
    match generate(&mut machine, threads, from, count, &mut line, &mut steps) {
        Ok(()) => Ok((line, machine.into_disk())),
        Err(_) => Err(Memory),
    }
}

/// Whether a run writes this line.
fn writes<T: Threads + Sync>(
    threads: &T,
    alloc: Global,
    from: u64,
    count: u64,
    line: &[u8],
) -> Result<bool, Memory>
    requires { count ≤ most_rounds }
{
    let (written, _) = run_of::<T, Brand>(threads, alloc, from, count, Blank::new(1))?;
    Ok(written.as_slice() == line)
}

#[test]
fn runs_write_what_they_counted(rt: HostRuntime) -> Result<(), Fail> {
    let none = b"rounds 0 commits 0 full 0 freed 0 cuts 0\n";
    assert!(rt; writes(&rt, rt.alloc(), 1, 0, none)?);
    let one = b"rounds 1 commits 1 full 0 freed 0 cuts 0\n";
    assert!(rt; writes(&rt, rt.alloc(), 1, 1, one)?);
    let many = b"rounds 64 commits 64 full 0 freed 60 cuts 2\n";
    assert!(rt; writes(&rt, rt.alloc(), 1, 64, many)?);
    let more = b"rounds 1000 commits 1000 full 0 freed 985 cuts 31\n";
    assert!(rt; writes(&rt, rt.alloc(), 7, 1000, more)?);
    Ok(())
}
