//! Scripts of bytes that no line has, lines that are too long, and files that are spoilt.
use super::{Trial, bytes_end, fresh_store, notes_of, run_on, trial_of};
use crate::Status;
use disk_trait::Disk;
use std::test::Fail;

/// Where a script has its first bad line.
fn bad_at(line: u64, column: u32) -> Status {
    Status::BadLine { line, column }
}

#[test]
fn bytes_that_no_word_has_are_refused_at_their_place(rt: HostRuntime) -> Result<(), Fail> {
    for (script, status, written) in [
        (
            b"begin 1\nnum 1 0.0.1\x00\n".as_slice(),
            bad_at(2, 7),
            b"ok\n".as_slice(),
        ),
        (b"\x00\n".as_slice(), bad_at(1, 1), b"".as_slice()),
        (
            b"begin 1\nbegin \xff2\n".as_slice(),
            bad_at(2, 7),
            b"ok\n".as_slice(),
        ),
        (b"begin\t1\n".as_slice(), bad_at(1, 1), b"".as_slice()),
        (b"begin 1\r\n".as_slice(), bad_at(1, 7), b"".as_slice()),
        (
            b"# \x00\xff\t\r\nbegin 1\n".as_slice(),
            Status::Done,
            b"ok\n".as_slice(),
        ),
    ] {
        bytes_end(&rt, script.to_vec(rt.alloc())?, 0, status, written)?;
    }
    Ok(())
}

#[test]
fn a_line_has_200_bytes_at_most(rt: HostRuntime) -> Result<(), Fail> {
    let alloc = rt.alloc();
    for (len, status) in [(200, Status::Done), (201, bad_at(3, 201))] {
        let mut script = b"begin 1\nnum 1 0.0.1\n".to_vec(alloc)?;
        script.extend_from_slice(&notes_of(alloc, len + 1, len + 1)?)?;
        bytes_end(&rt, script, 0, status, b"ok\nnum 0\n")?;
    }
    Ok(())
}

/// Bytes of a fresh store of 2 pages that are changed, and how a script ends on it.
const SPOILT: [(u64, &[u8], Status); 3] = [
    // The file's mark.
    (0, b"x", Status::NotAStore),
    // The mark of page 1.
    (526_338, b"\x00", Status::Damaged { at: 526_336 }),
    // A reference of the root, to an object that isn't there.
    (
        525_392,
        b"\x00\x00\x00\x01\x00\x00\x00\x01",
        Status::Damaged { at: 525_392 },
    ),
];

#[test]
fn a_spoilt_file_is_refused_at_its_place(rt: HostRuntime) -> Result<(), Fail> {
    // A script that was read would end in a read fault.
    let trial = Trial {
        failing_read: 1,
        ..trial_of("begin 1\n")
    };
    for (at, bytes, status) in SPOILT.iter() {
        let mut disk = fresh_store(&rt, 0)?;
        assert!(rt; disk.len() >= 527_360);
        assert!(rt; disk.write_at(*at, bytes).is_ok());
        run_on(&rt, &trial, disk, *status, b"")?;
    }
    Ok(())
}
