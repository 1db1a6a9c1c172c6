//! Replies that are held back until more input is read.
use crate::console::{Answering, Asking, Held};
use std::cell::{Cell, RefCell};
use std::io;
use std::io::{ErrorKind, Read, Write};
use std::test::Fail;

/// Standard output, which counts the bytes that are out, or is closed.
#[derive(Drop)]
struct Out<'a> {
    bytes: &'a Cell<usize>,
    closed: bool,
}

impl<'a> Write for Out<'a> {
    fn write(&mut self, buf: &[u8]) -> io::Result<usize> {
        if self.closed {
            return Err(io::Error::from(ErrorKind::BrokenPipe));
        }
        self.bytes.set(self.bytes.get().saturating_add(buf.len()));
        Ok(buf.len())
    }

    fn flush(&mut self) -> io::Result<()> {
        Ok(())
    }
}

/// Standard input from somebody who sends a byte for each one that is out.
#[derive(Drop)]
struct In<'a> {
    bytes: &'a Cell<usize>,
}

impl<'a> Read for In<'a> {
    fn read(&mut self, buf: &mut [u8]) -> io::Result<usize> {
        Ok(self.bytes.get().min(buf.len()))
    }
}

/// Writes a reply, and then asks for input. Answers how much came, whether the output failed, and
/// whether a further reply is taken.
fn reply_and_ask<A: AllocGlobal>(rt: &A, closed: bool) -> Result<(usize, bool, bool), Fail> {
    let bytes = Cell::new(0);
    let out = Out {
        bytes: &bytes,
        closed,
    };
    let held = RefCell::new(Held::on(rt.alloc(), out)?);
    let mut answering = Answering { held: &held };
    let mut asking = Asking {
        reader: In { bytes: &bytes },
        held: &held,
    };
    let mut buf = [0u8; 8];
    if answering.write(b"ok\n")? != 3 || bytes.get() != 0 {
        return Err(Fail::from("the reply isn't held back"));
    }
    let count = asking.read(&mut buf)?;
    let taken = answering.write(b"ok\n").is_ok();
    drop(answering);
    drop(asking);
    Ok((count, held.into_inner().has_failed(), taken))
}

#[test]
fn replies_are_out_before_more_is_read(rt: HostRuntime) -> Result<(), Fail> {
    assert_eq!(rt; reply_and_ask(&rt, false)?, (3, false, true));
    Ok(())
}

#[test]
fn a_closed_output_is_remembered_and_takes_no_more(rt: HostRuntime) -> Result<(), Fail> {
    assert_eq!(rt; reply_and_ask(&rt, true)?, (0, true, false));
    Ok(())
}
