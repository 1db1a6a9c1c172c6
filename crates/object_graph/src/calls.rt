//! Calls, replies and refusals.
ghost use Rattle.std.specs.Prelude.{◌≡◌};
ghost use Rattle.object_graph.specs.Replies.{done_reply, made_reply, num_reply, ref_reply};

use crate::names::Name;
use crate::slots::SlotSet;

/// The phase of a cut.
#[derive(Clone, Copy, Debug, PartialEq, Eq)]
pub enum Phase {
    Copying,
    Closed,
    Sweeping,
}

/// A call of the store.
#[derive(Clone, Copy, Debug, PartialEq, Eq)]
pub enum Call {
    Begin {
        txn: u32,
    },
    Get {
        txn: u32,
        name: Name,
        field: u32,
    },
    Number {
        txn: u32,
        name: Name,
    },
    Set {
        txn: u32,
        name: Name,
        field: u32,
        target: Option<Name>,
    },
    Put {
        txn: u32,
        name: Name,
        value: u64,
    },
    New {
        txn: u32,
        page: u32,
    },
    Commit {
        txn: u32,
    },
    Abort {
        txn: u32,
    },
    OpenCut,
    Copy {
        page: u32,
    },
    HandIn {
        page: u32,
        cut: u64,
        seen: u64,
    },
    Close,
    Mark {
        workers: u32,
    },
    Sweep {
        page: u32,
    },
    EndCut,
    DropCut,
    Reopen,
}

/// A reply to a call.
#[derive(Clone, Copy, Debug, PartialEq, Eq)]
pub enum Reply {
    Done,
    Ref { target: Option<Name> },
    Num { value: u64 },
    Made { name: Name },
    Committed { commits: u64 },
    Cut { number: u64 },
    Freed { slots: SlotSet },
    Reopened { commits: u64 },
    Refused { why: Refusal },
}

impl Reply {
    /// The reply of a call that answers nothing.
    pub fn done(answer: Result<(), Refusal>) -> Reply
        ensures { result ≡ done_reply answer }
    {
        match answer {
            Ok(()) => Reply::Done,
            Err(why) => Reply::Refused { why },
        }
    }

    /// The reply of a call that answers a reference.
    pub fn reference(answer: Result<Option<Name>, Refusal>) -> Reply
        ensures { result ≡ ref_reply answer }
    {
        match answer {
            Ok(target) => Reply::Ref { target },
            Err(why) => Reply::Refused { why },
        }
    }

    /// The reply of a call that answers a number.
    pub fn number(answer: Result<u64, Refusal>) -> Reply
        ensures { result ≡ num_reply answer }
    {
        match answer {
            Ok(value) => Reply::Num { value },
            Err(why) => Reply::Refused { why },
        }
    }

    /// The reply of a call that makes an object.
    pub fn made(answer: Result<Name, Refusal>) -> Reply
        ensures { result ≡ made_reply answer }
    {
        match answer {
            Ok(name) => Reply::Made { name },
            Err(why) => Reply::Refused { why },
        }
    }
}

/// Why a call was refused.
#[derive(Clone, Copy, Debug, PartialEq, Eq)]
pub enum Refusal {
    NotOpen,
    Stranger,
    BadField,
    NoPage,
    Busy { holder: u32 },
    TooWide,
    KnowsTooMany,
    PageFull { page: u32 },
    AlreadyOpen,
    TooMany,
    CutThere { number: u64 },
    NoCut,
    WrongPhase { now: Phase },
    AlreadyCopied { page: u32 },
    Uncopied { page: u32 },
    OtherCut { now: u64 },
    AlreadySwept { page: u32 },
    Unswept { page: u32 },
    Spent { count: u64 },
    DiskFault,
    Broken { faults: u64 },
    NotAStore,
    Damaged { at: u64 },
    Memory,
}

/// A call of a lane, with its reply.
#[derive(Clone, Copy, Debug, PartialEq, Eq)]
pub struct Entry {
    pub lane: u32,
    pub call: Call,
    pub reply: Reply,
}
