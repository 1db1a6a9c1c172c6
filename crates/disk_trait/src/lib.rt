//! The outside of the store: where bytes come from, where they go, and the disk; and fakes of these
//! in memory, whose failing calls a test can choose.
#![tactic(auto)]

mod crash;
mod disk;
mod failed;
mod file;
mod gate;
mod memory;
mod note;
mod past;
mod sink;
mod source;
#[cfg(test)]
mod tests;

pub use disk::Disk;
pub use failed::Failed;
pub use file::FileDisk;
pub use gate::{Gate, MeetGate, OpenGate};
pub use memory::MemDisk;
pub use sink::{MemSink, Sink, StdSink};
pub use source::{MemSource, Source, StdSource};
