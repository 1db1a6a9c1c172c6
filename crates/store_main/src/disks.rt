//! The disk on which a command works: a file, or bytes in memory.

use disk_trait::{FileDisk, MemDisk, MemSink, MemSource};
use object_graph::MOST_PAGES;
use redo_journal::{HOMES_START, PAGE_SIZE};
use std::alloc::Global;
use std::fs::{File, OpenFile, OpenOptions, TryLockError};
use std::io;
use std::io::ErrorKind;
use std::rt::Files;
use std::thread::Threads;
use store_run::{Status, top};

/// The pages of a store in memory.
const MEMORY_PAGES: u64 = 16;

/// The bytes of a store in memory.
const MEMORY_BYTES: u64 = HOMES_START + PAGE_SIZE as u64 * MEMORY_PAGES;

/// The bytes of a file that is made: the largest store.
pub const FILE_BYTES: u64 = HOMES_START + PAGE_SIZE as u64 * MOST_PAGES as u64;

/// A disk in memory on which a store of 16 pages was made.
pub fn fresh_store<R: AllocGlobal + Threads + Sync>(rt: &R) -> Result<MemDisk, Status> {
    let alloc = rt.alloc();
    let words = make_words(alloc)?;
    let disk = MemDisk::new(alloc, MEMORY_BYTES, Vec::new(alloc)).map_err(|_| Status::Memory)?;
    let mut source = MemSource::new(Vec::new(alloc), Vec::new(alloc));
    let mut sink = MemSink::new(alloc, 0, Vec::new(alloc)).map_err(|_| Status::Memory)?;
    match top(rt, alloc, &words, &mut source, &mut sink, disk) {
        (Status::Done, disk) => Ok(disk),
        (status, _) => Err(status),
    }
}

// The words that make a store of 16 pages.
fn make_words(alloc: Global) -> Result<Vec<String>, Status> {
    let mut words = Vec::new(alloc);
    for word in ["make", "16"] {
        let word = String::from_str(alloc, word).map_err(|_| Status::Memory)?;
        words.push(word).map_err(|_| Status::Memory)?;
    }
    Ok(words)
}

/// The disk over the file of that name, which nobody else has meanwhile. Only where a store is to be
/// made an absent file is, too.
pub fn open_file<R: Files<File = File>>(rt: &R, name: &str, makes: bool) -> io::Result<FileDisk> {
    match OpenOptions::new().read(true).write(true).open(rt, name) {
        Ok(file) => {
            hold(&file)?;
            let len = file.metadata()?.len();
            Ok(FileDisk::on(file, len))
        }
        Err(error) if makes && error.kind() == ErrorKind::NotFound => make_file(rt, name),
        Err(error) => Err(error),
    }
}

// The disk over a new file of zero bytes.
fn make_file<R: Files<File = File>>(rt: &R, name: &str) -> io::Result<FileDisk> {
    let file = OpenOptions::new()
        .read(true)
        .write(true)
        .create_new(true)
        .open(rt, name)?;
    hold(&file)?;
    file.set_len(FILE_BYTES)?;
    Ok(FileDisk::on(file, FILE_BYTES))
}

// Takes the lock on the file, unless somebody else has it. A file system that knows no locks is taken
// as it is.
fn hold(file: &File) -> io::Result<()> {
    match file.try_lock() {
        Err(TryLockError::WouldBlock) => Err(io::Error::from(ErrorKind::WouldBlock)),
        Err(TryLockError::Error(_)) | Ok(()) => Ok(()),
    }
}
