//! Worked scripts with all that they write.
use super::{commanded, ends, run_on, trial_of};
use crate::Status;
use crate::tests::Trial;
use disk_trait::MemDisk;
use std::process::Abort;
use std::test::Fail;
use std::thread::Threads;

/// The bytes of a store of 4 pages.
const WIDE_DISK_BYTES: u64 = 529_408;

/// A script on a fresh store of so many pages, at most 4, and what it writes.
struct Worked {
    pages: &'static str,
    script: &'static str,
    written: &'static str,
}

const EXAMPLES: [Worked; 11] = [
    // A transaction, and the store opened again.
    Worked {
        pages: "2",
        script: "begin 1\nnew 1 1\nset 1 0.0.1 0 1.0.1\nput 1 1.0.1 7\ncommit 1\nreopen\nbegin 2\nget 2 0.0.1 0\nnum 2 1.0.1\nabort 2\n",
        written: "ok\nnew 1.0.1\nok\nok\ncommit 1\nopen 1\nok\nref 1.0.1\nnum 7\nok\n",
    },
    // Nothing is collected where nothing is garbage.
    Worked {
        pages: "2",
        script: "collect 2\n",
        written: "cut 1\nok\nok\nok\nok\nfreed none\nfreed none\nok\n",
    },
    // A chain that is unlinked is collected.
    Worked {
        pages: "2",
        script: "begin 1\nnew 1 1\nnew 1 1\nnew 1 1\nset 1 1.0.1 0 1.1.1\nset 1 1.1.1 0 1.2.1\nset 1 0.0.1 0 1.0.1\ncommit 1\nbegin 2\nnil 2 0.0.1 0\ncommit 2\ncollect 1\nbegin 3\nnew 3 1\n",
        written: "ok\nnew 1.0.1\nnew 1.1.1\nnew 1.2.1\nok\nok\nok\ncommit 1\nok\nok\ncommit 2\ncut 1\nok\nok\nok\nok\nfreed none\nfreed 0 1 2\nok\nok\nnew 1.0.2\n",
    },
    // A pointer moves from a page that isn't copied to one that is.
    Worked {
        pages: "3",
        script: "begin 1\nnew 1 1\nnew 1 2\nset 1 0.0.1 0 1.0.1\nset 1 1.0.1 0 2.0.1\ncommit 1\nopen\ncopy 0\nbegin 2\nget 2 0.0.1 0\nget 2 1.0.1 0\nset 2 0.0.1 1 2.0.1\nnil 2 1.0.1 0\ncommit 2\ncopy 1\ncopy 2\nclose\nmark 1\nsweep 0\nsweep 1\nsweep 2\nend\n",
        written: "ok\nnew 1.0.1\nnew 2.0.1\nok\nok\ncommit 1\ncut 1\nok\nok\nref 1.0.1\nref 2.0.1\nok\nok\ncommit 2\nok\nok\nok\nok\nfreed none\nfreed none\nfreed none\nok\n",
    },
    // A dirty page is copied, and its writer aborts.
    Worked {
        pages: "2",
        script: "begin 1\nnew 1 1\nset 1 0.0.1 0 1.0.1\ncommit 1\nopen\nbegin 2\nnil 2 0.0.1 0\ncopy 0\nabort 2\ncopy 1\nclose\nmark 2\nsweep 0\nsweep 1\nend\n",
        written: "ok\nnew 1.0.1\nok\ncommit 1\ncut 1\nok\nok\nok\nok\nok\nok\nok\nfreed none\nfreed none\nok\n",
    },
    // What is unlinked after its copy outlives the cut, and not the next.
    Worked {
        pages: "2",
        script: "begin 1\nnew 1 1\nset 1 0.0.1 0 1.0.1\ncommit 1\nopen\ncopy 0\nbegin 2\nnil 2 0.0.1 0\ncommit 2\ncopy 1\nclose\nmark 1\nsweep 0\nsweep 1\nend\ncollect 1\n",
        written: "ok\nnew 1.0.1\nok\ncommit 1\ncut 1\nok\nok\nok\ncommit 2\nok\nok\nok\nfreed none\nfreed none\nok\ncut 2\nok\nok\nok\nok\nfreed none\nfreed 0\nok\n",
    },
    // So does what is born and dropped within a cut.
    Worked {
        pages: "2",
        script: "open\nbegin 2\nnew 2 1\nset 2 0.0.1 0 1.0.1\ncommit 2\nbegin 3\nnil 3 0.0.1 0\ncommit 3\ncopy 0\ncopy 1\nclose\nmark 1\nsweep 0\nsweep 1\nend\ncollect 1\n",
        written: "cut 1\nok\nnew 1.0.1\nok\ncommit 1\nok\nok\ncommit 2\nok\nok\nok\nok\nfreed none\nfreed none\nok\ncut 2\nok\nok\nok\nok\nfreed none\nfreed 0\nok\n",
    },
    // A page is swept that a transaction has locked.
    Worked {
        pages: "2",
        script: "begin 1\nnew 1 1\ncommit 1\nopen\ncopy 0\ncopy 1\nclose\nmark 1\nbegin 2\nnew 2 1\nsweep 0\nsweep 1\nabort 2\nend\nbegin 3\nnew 3 1\n",
        written: "ok\nnew 1.0.1\ncommit 1\ncut 1\nok\nok\nok\nok\nok\nnew 1.1.1\nfreed none\nfreed 0\nok\nok\nok\nnew 1.0.2\n",
    },
    // Each phase of a cut has its calls.
    Worked {
        pages: "4",
        script: "copy 0\nopen\nopen\ncopy 0\ncopy 0\ncopy 1\ncopy 2\nclose\ncopy 3\nclose\nsweep 0\nmark 1\nend\nsweep 0\nsweep 0\ndrop\ndrop\n",
        written: "no cut\ncut 1\ncut there 1\nok\nalready copied 0\nok\nok\nuncopied 3\nok\nok\nwrong phase closed\nok\nunswept 0\nfreed none\nalready swept 0\nok\nno cut\n",
    },
    // A cut is marked once it is closed, and once.
    Worked {
        pages: "1",
        script: "mark 1\nopen\nmark 1\ncopy 0\nclose\nmark 16\nmark 1\ndrop\n",
        written: "no cut\ncut 1\nwrong phase copying\nok\nok\nok\nwrong phase sweeping\nok\n",
    },
    // A cut doesn't outlive a reopening.
    Worked {
        pages: "2",
        script: "open\nreopen\ncopy 0\n",
        written: "cut 1\nopen 0\nno cut\n",
    },
];

#[test]
fn worked_scripts_write_what_they_should(rt: HostRuntime) -> Result<(), Fail> {
    let alloc = rt.alloc();
    for example in EXAMPLES.iter() {
        let disk = MemDisk::new(alloc, WIDE_DISK_BYTES, Vec::new(alloc))?;
        let (status, disk) = commanded(&rt, &["make", example.pages], disk)?;
        assert_eq!(rt; status, Status::Done);
        run_on(
            &rt,
            &trial_of(example.script),
            disk,
            Status::Done,
            example.written.as_bytes(),
        )?;
    }
    Ok(())
}

/// How many calls of the disk the making and the opening of a store of 2 pages take.
pub fn calls_before<R: AllocGlobal + Threads + Sync + Abort>(rt: &R) -> Result<u64, Fail> {
    Ok(ends(rt, &trial_of(""), Status::Done, b"")?.calls())
}

#[test]
fn a_failed_commit_breaks_the_store_until_it_is_reopened(rt: HostRuntime) -> Result<(), Fail> {
    let failing_call = calls_before(&rt)?.saturating_add(1);
    let mended = Trial {
        failing_call,
        ..trial_of("begin 1\nput 1 0.0.1 5\ncommit 1\nbegin 2\nreopen\nbegin 2\nnum 2 0.0.1\n")
    };
    ends(
        &rt,
        &mended,
        Status::Done,
        b"ok\nok\ndisk fault\nbroken 1\nopen 0\nok\nnum 0\n",
    )?;
    Ok(())
}

#[test]
fn a_collection_stops_after_the_first_refusal(rt: HostRuntime) -> Result<(), Fail> {
    let failing_call = calls_before(&rt)?.saturating_add(10);
    let stopped = Trial {
        failing_call,
        ..trial_of(
            "begin 1\nnew 1 1\nnew 1 1\nnew 1 1\nset 1 1.0.1 0 1.1.1\nset 1 1.1.1 0 1.2.1\nset 1 0.0.1 0 1.0.1\ncommit 1\nbegin 2\nnil 2 0.0.1 0\ncommit 2\ncollect 1\nreopen\nbegin 9\nnum 9 0.0.1\n",
        )
    };
    ends(
        &rt,
        &stopped,
        Status::Done,
        b"ok\nnew 1.0.1\nnew 1.1.1\nnew 1.2.1\nok\nok\nok\ncommit 1\nok\nok\ncommit 2\ncut 1\nok\nok\nok\nok\nfreed none\ndisk fault\nopen 2\nok\nnum 0\n",
    )?;
    Ok(())
}

#[test]
fn a_failing_write_ends_within_a_collection(rt: HostRuntime) -> Result<(), Fail> {
    let written: [&[u8]; 4] = [b"", b"cut 1\n", b"cut 1\nok\n", b"cut 1\nok\nok\n"];
    for (at, written) in written.iter().enumerate() {
        let trial = Trial {
            failing_write: at as u64 + 1,
            ..trial_of("collect 2\ncollect 2\n")
        };
        ends(&rt, &trial, Status::WriteFault, written)?;
    }
    Ok(())
}
