//! Standard output in large pieces, each of which is out before more input is read. So whoever waits
//! for a reply before the next line is sent has it, and a long script costs few writes.
ghost use Rattle.std.specs.Io.{WritesAtMost};

use std::alloc::Global;
use std::cell::RefCell;
use std::io;
use std::io::{BufWriter, ErrorKind, Read, Write};

/// A writer that holds texts back.
#[derive(Drop)]
pub struct Held<W: Write + Drop> {
    writer: BufWriter<W>,
    failed: bool,
}

impl<W: Write + Drop> Held<W> {
    /// Nothing is held back yet.
    pub fn on(alloc: Global, writer: W) -> io::Result<Held<W>> {
        Ok(Held {
            writer: BufWriter::new(alloc, writer)?,
            failed: false,
        })
    }

    /// Writes out what is held back. A failure is kept.
    pub fn send(&mut self) {
        if self.writer.flush().is_err() {
            self.failed = true;
        }
    }

    /// Whether something couldn't be written out.
    pub fn has_failed(&self) -> bool {
        self.failed
    }

    // Holds back a front of these bytes. After a failure it takes nothing.
    fn add(&mut self, bytes: &[u8]) -> io::Result<usize>
        ensures { WritesAtMost result bytes.now }
    {
        if self.failed {
            return Err(io::Error::from(ErrorKind::BrokenPipe));
        }
        self.writer.write(bytes)
    }
}

/// A reader that first writes out what is held back.
#[derive(Drop)]
pub struct Asking<'a, R: Read + Drop, W: Write + Drop> {
    pub reader: R,
    pub held: &'a RefCell<Held<W>>,
}

impl<'a, R: Read + Drop, W: Write + Drop> Read for Asking<'a, R, W> {
    fn read(&mut self, buf: &mut [u8]) -> io::Result<usize> {
        if let Ok(mut held) = self.held.try_borrow_mut() {
            held.send();
        }
        self.reader.read(buf)
    }
}

/// A writer into what is held back.
#[derive(Drop)]
pub struct Answering<'a, W: Write + Drop> {
    pub held: &'a RefCell<Held<W>>,
}

impl<'a, W: Write + Drop> Write for Answering<'a, W> {
    fn write(&mut self, buf: &[u8]) -> io::Result<usize> {
        match self.held.try_borrow_mut() {
            Ok(mut held) => held.add(buf),
            Err(_) => Err(io::Error::from(ErrorKind::Other)),
        }
    }

    fn flush(&mut self) -> io::Result<()> {
        Ok(())
    }
}
