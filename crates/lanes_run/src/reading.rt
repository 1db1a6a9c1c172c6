//! Reading a script of lanes.
ghost use Rattle.std.specs.Prelude.{◌≡◌, ◌≢◌, ◌≤◌, [], Err, vec_capacity};
ghost use Rattle.disk_trait.specs.Causes.{Rose};
ghost use Rattle.lanes_run.specs.Judging.{BytesRead, ScriptRead};

use crate::judging::{Tally, judge_end, judge_piece};
use disk_trait::Source;
use std::alloc::Global;
use store_run::{PIECE_LIMIT, Status, UNREAD_ROOM, Unread, append};

/// A script that isn't refused, and for how many entries it asks.
#[derive(Drop)]
pub struct Script {
    pub bytes: Vec<u8>,
    pub entries: u64,
}

/// Reads a script to its end, over a store of so many pages. It is judged as it is read, so that what
/// counts at the earliest byte is told.
pub fn read_script<S: Source>(alloc: Global, pages: u32, source: &mut S) -> Result<Script, Status>
    ensures read { ScriptRead pages (S.left source.old) (S.left source.new) result }
    ensures cause { result ≡ Err Status.ReadFault → Rose (S.faults source.old) (S.faults source.new) }
    ensures calm { result ≢ Err Status.ReadFault → S.faults source.new ≡ S.faults source.old }
{
    let Ok(mut unread) = Unread::new(alloc) else {
        return Err(Status::Memory);
    };
    let mut bytes = Vec::new(alloc);
    match read_pieces(pages, &mut unread, &mut bytes, source) {
        Ok(entries) => Ok(Script { bytes, entries }),
        Err(status) => Err(status),
    }
}

/// Takes in a script piece by piece, with room taken before each read, and judges it. Answers for how
/// many entries it asks.
fn read_pieces<S: Source>(
    pages: u32,
    unread: &mut Unread,
    bytes: &mut Vec<u8>,
    source: &mut S,
) -> Result<u64, Status>
    requires unread_room { UNREAD_ROOM ≤ vec_capacity unread.old.ahead }
    requires nothing_ahead { unread.old.ahead.items ≡ [] }
    requires nothing_taken { unread.old.taken ≡ 0 }
    requires nothing_yet { bytes.old.items ≡ [] }
    ensures read { BytesRead pages (S.left source.old) (S.left source.new) bytes.new.items result }
    ensures cause { result ≡ Err Status.ReadFault → Rose (S.faults source.old) (S.faults source.new) }
    ensures calm { result ≢ Err Status.ReadFault → S.faults source.new ≡ S.faults source.old }
{
    let mut tally = Tally {
        lines: 0,
        entries: 0,
    };
    let mut room = [0; PIECE_LIMIT];
    'pieces: loop {
        if bytes.reserve(PIECE_LIMIT).is_err() {
            return Err(Status::Memory);
        }
        let before = unread.ahead.len();
        match unread.read_piece(source, &mut room) {
            Err(status) => return Err(status),
            Ok(count) => {
                if count == 0 {
                    return judge_end(&unread.ahead, pages, tally);
                }
            }
        }
        append(bytes, unread.ahead.split_at(before).1);
        match judge_piece(unread, pages, tally) {
            Ok(now) => tally = now,
            Err(status) => return Err(status),
        }
    }
}
