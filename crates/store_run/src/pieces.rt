//! Reading a script in pieces.
ghost use Rattle.std.specs.Prelude.{◌≡◌, ◌≢◌, ◌+◌, ◌-◌, ◌≤◌, ◌<◌, Err, IfOk, vec_len, vec_capacity, drop, [], ◌++◌, length};
ghost use Rattle.disk_trait.specs.Causes.{Rose};
ghost use Rattle.store_run.specs.Pieces.{Reads, ReadsEnd};

use crate::status::Status;
use disk_trait::Source;
use object_graph::Memory;
use script_lang::LINE_LIMIT;
use std::alloc::Global;

/// How many bytes a script may have (FORMATS.md, "Script lines").
pub const SCRIPT_LIMIT: usize = 16_777_216;

/// How many bytes one read asks for at most.
pub const PIECE_LIMIT: usize = 4_096;

/// Room for an unended line, and for a piece behind it.
pub const UNREAD_ROOM: usize = LINE_LIMIT + PIECE_LIMIT;

/// What was read of a script, and isn't run yet.
#[derive(Drop)]
pub struct Unread {
    /// An unended line, and after a read a piece behind it.
    pub ahead: Vec<u8>,
    /// How many bytes were read in all.
    pub taken: usize,
}

impl Unread {
    /// Before the first read.
    pub fn new(alloc: Global) -> Result<Unread, Memory>
        ensures ahead { IfOk result (λ unread. unread.ahead.items ≡ []) }
        ensures taken { IfOk result (λ unread. unread.taken ≡ 0) }
        ensures room { IfOk result (λ unread. UNREAD_ROOM ≤ vec_capacity unread.ahead) }
    {
        match Vec::with_capacity(alloc, UNREAD_ROOM) {
            Ok(ahead) => Ok(Unread { ahead, taken: 0 }),
            Err(_) => Err(Memory),
        }
    }

    /// Reads a piece, and never more than a byte above a script's limit. Answers how many bytes it
    /// has; 0 is the end of input. The room is for the bytes on their way, and means nothing after.
    pub fn read_piece<S: Source>(
        &mut self,
        source: &mut S,
        room: &mut [u8; PIECE_LIMIT],
    ) -> Result<usize, Status>
        requires short { vec_len self.old.ahead ≤ LINE_LIMIT }
        requires room { UNREAD_ROOM ≤ vec_capacity self.old.ahead }
        requires within { self.old.taken ≤ SCRIPT_LIMIT }
        ensures read { Reads (S.left source.old) (S.left source.new) self.old self.new result }
        ensures room { UNREAD_ROOM ≤ vec_capacity self.new.ahead }
        ensures cause { result ≡ Err Status.ReadFault → Rose (S.faults source.old) (S.faults source.new) }
        ensures calm { result ≢ Err Status.ReadFault → S.faults source.new ≡ S.faults source.old }
    {
        let most = PIECE_LIMIT.min(SCRIPT_LIMIT - self.taken);
        if most == 0 {
            return read_end(source);
        }
        let out = &mut room[..most];
        match source.read(out) {
            Err(_) => Err(Status::ReadFault),
            Ok(count) => {
                append(&mut self.ahead, &out[..count]);
                self.taken += count;
                Ok(count)
            }
        }
    }

    /// Keeps only the last of the bytes, so many.
    pub fn keep_last(&mut self, count: usize)
        requires { count ≤ vec_len self.old.ahead }
        ensures ahead { self.new.ahead.items ≡ drop (vec_len self.old.ahead - count) self.old.ahead.items }
        ensures taken { self.new.taken ≡ self.old.taken }
        ensures room { vec_capacity self.new.ahead ≡ vec_capacity self.old.ahead }
    {
        let before = self.ahead.len() - count;
        remove_front(&mut self.ahead, before);
    }
}

/// Looks whether there is a byte more than a script may have.
fn read_end<S: Source>(source: &mut S) -> Result<usize, Status>
    ensures read { ReadsEnd (S.left source.old) (S.left source.new) result }
    ensures cause { result ≡ Err Status.ReadFault → Rose (S.faults source.old) (S.faults source.new) }
    ensures calm { result ≢ Err Status.ReadFault → S.faults source.new ≡ S.faults source.old }
{
    let mut byte = [0u8; 1];
    match source.read(&mut byte) {
        Err(_) => Err(Status::ReadFault),
        Ok(0) => Ok(0),
        Ok(_) => Err(Status::TooLong),
    }
}

/// Adds bytes for which there is room.
pub fn append(bytes: &mut Vec<u8>, more: &[u8])
    requires { vec_len bytes.old + length more.now ≤ vec_capacity bytes.old }
    ensures items { bytes.new.items ≡ bytes.old.items ++ more.now }
    ensures room { vec_capacity bytes.old ≤ vec_capacity bytes.new }
{
    let Ok(()) = bytes.extend_from_slice(more) else {
        unreachable!()
    };
}

/// Drops the first of the bytes, so many.
fn remove_front(bytes: &mut Vec<u8>, count: usize)
    requires { count ≤ vec_len bytes.old }
    ensures items { bytes.new.items ≡ drop count bytes.old.items }
    ensures room { vec_capacity bytes.new ≡ vec_capacity bytes.old }
{
    let len = bytes.len();
    bytes.as_mut_slice().copy_within(count..len, 0);
    bytes.truncate(len - count);
}
