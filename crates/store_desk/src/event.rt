//! What the chronicle keeps of a call.
ghost use Rattle.std.specs.Prelude.{◌≡◌};

use crate::names::FreedNames;
use cut_builder::ClosedCut;
use object_graph::{Call, Entry, Reply};
use std::snapshot::Snapshot;
use told::Told;

/// What an event leaves open without it (MODEL.md, "Histories"). The last two have no bytes.
#[derive(Drop)]
pub enum Note {
    /// Nothing.
    Nothing,
    /// A disk fault: the disk's count of faults as the call ended.
    Faults { count: u64 },
    /// A closing: the images and born slots that it gave out.
    Images { given: Snapshot<ClosedCut> },
    /// Marks: the number of their cut, or none where marking found no memory.
    Marks { cut: Option<u64> },
    /// A reopening: the names that it found freed.
    Found { names: Told<FreedNames> },
}

/// An entry of the chronicle with its note.
#[derive(Drop)]
pub struct Event {
    entry: Entry,
    note: Note,
}

impl Event {
    /// The event of a lane's call.
    pub(crate) fn of(lane: u32, call: &Call, reply: &Reply, note: Note) -> Event
        ensures { result ≡ record { entry = record { lane = lane; call = call.now; reply = reply.now }; note = note } }
    {
        Event {
            entry: Entry {
                lane,
                call: *call,
                reply: *reply,
            },
            note,
        }
    }

    /// The lane, the call and the reply.
    pub fn entry(&self) -> Entry
        ensures { result ≡ self.now.entry }
    {
        self.entry
    }

    /// What it keeps.
    pub fn note(&self) -> &Note
        ensures { result.now ≡ self.now.note }
    {
        &self.note
    }
}
