//! A store in a real file, from its making on.
use crate::disks::open_file;
use crate::run_words;
use disk_trait::{FileDisk, MemSink, MemSource};
use std::alloc::{AllocError, Global};
use std::fs;
use std::fs::File;
use std::process::Abort;
use std::rt::Files;
use std::test::Fail;
use std::thread::Threads;
use store_run::{Status, top};

mod replies;

// Runs a command over the file, and compares what it wrote.
fn run_over<R: AllocGlobal + Threads + Sync + Abort>(
    rt: &R,
    disk: FileDisk,
    words: &[&str],
    script: &str,
    written: &str,
) -> Result<(), Fail> {
    let alloc = rt.alloc();
    let mut list = Vec::new(alloc);
    for word in words {
        list.push(String::from_str(alloc, word)?)?;
    }
    let script = script.as_bytes().to_vec(alloc)?;
    let mut source = MemSource::new(script, Vec::new(alloc));
    let mut sink = MemSink::new(alloc, 256, Vec::new(alloc))?;
    let (status, _disk) = top(rt, alloc, &list, &mut source, &mut sink, disk);
    assert_eq!(rt; status, Status::Done);
    assert!(rt; sink.bytes() == written.as_bytes());
    Ok(())
}

// Sixteen lanes, each of which commits a new object on a page of its own.
fn sixteen_lanes(alloc: Global) -> Result<String, AllocError> {
    let mut script = String::new(alloc);
    for page in 0..16u32 {
        let lane = page + 1;
        let lines = format!(in alloc;
            "{lane} begin {lane}\n{lane} new {lane} {page}\n{lane} commit {lane}\n"
        )?;
        script.push_str(&lines)?;
    }
    Ok(script)
}

// Opens the file as the program does.
fn opened<R: Files<File = File>>(rt: &R, makes: bool) -> Result<FileDisk, Fail> {
    Ok(open_file(rt, "store_main.test", makes)?)
}

#[test]
fn a_file_keeps_what_was_committed(rt: HostRuntime) -> Result<(), Fail> {
    assert!(rt; open_file(&rt, "store_main.test", false).is_err());
    run_over(&rt, opened(&rt, true)?, &["make", "16"], "", "")?;
    let first = "begin 1\nput 1 0.0.1 7\ncommit 1\nbegin 2\nput 2 0.0.1 8\n";
    let replies = "ok\nok\ncommit 1\nok\nok\n";
    run_over(&rt, opened(&rt, false)?, &["run"], first, replies)?;
    let second = "begin 1\nnum 1 0.0.1\ncommit 1\n";
    let replies = "ok\nnum 7\ncommit 2\n";
    run_over(&rt, opened(&rt, false)?, &["run"], second, replies)?;
    fs::remove_file(&rt, "store_main.test")?;
    Ok(())
}

#[test]
fn an_opening_finds_the_commits_of_sixteen_lanes(rt: HostRuntime) -> Result<(), Fail> {
    let alloc = rt.alloc();
    let name = "store_main_lanes.test";
    run_over(&rt, open_file(&rt, name, true)?, &["make", "16"], "", "")?;
    let words = vec![in alloc; String::from_str(alloc, "lanes")?]?;
    let mut source = MemSource::new(
        sixteen_lanes(alloc)?.as_bytes().to_vec(alloc)?,
        Vec::new(alloc),
    );
    let mut sink = MemSink::new(alloc, 2_048, Vec::new(alloc))?;
    let disk = open_file(&rt, name, false)?;
    let (status, disk) = run_words(&rt, alloc, &words, &mut source, &mut sink, disk);
    assert_eq!(rt; status, Status::Done);
    drop(disk);
    let disk = open_file(&rt, name, false)?;
    run_over(
        &rt,
        disk,
        &["run"],
        "begin 1\ncommit 1\n",
        "ok\ncommit 17\n",
    )?;
    fs::remove_file(&rt, name)?;
    Ok(())
}

#[test]
fn a_file_is_opened_once_at_a_time(rt: HostRuntime) -> Result<(), Fail> {
    let name = "store_main_lock.test";
    let disk = open_file(&rt, name, true)?;
    assert!(rt; open_file(&rt, name, true).is_err());
    drop(disk);
    assert!(rt; open_file(&rt, name, false).is_ok());
    fs::remove_file(&rt, name)?;
    Ok(())
}
