//! Why a journal isn't opened, and why a record isn't appended.
ghost use Rattle.std.specs.Prelude.{◌≡◌};
ghost use Rattle.redo_journal.specs.declared.faults.AppendFault.TheVariants.{DiskFault};

use disk_trait::Failed;

/// Why an area isn't opened.
#[derive(Clone, Copy, Debug, PartialEq, Eq)]
pub enum AreaFault {
    /// A call of the disk failed.
    DiskFault,
    /// The area isn't in the grammar: the place in the store file of the first wrong field
    /// (FORMATS.md, "Journal").
    BadRecord { at: u64 },
    /// There was no memory for the area's bytes, the images or the journal's room.
    Memory,
}

/// Why a record isn't appended.
#[derive(Clone, Copy, Debug, PartialEq, Eq)]
pub enum AppendFault {
    /// The record with its gate needs more bytes than are left in the area.
    NoRoom { need: u64, left: u64 },
    /// A call of the disk failed. The journal must be opened again.
    DiskFault,
}

impl From<Failed> for AppendFault {
    ghost from_gives = { λ _ e. e ≡ DiskFault };

    fn from(_: Failed) -> Self {
        AppendFault::DiskFault
    }
}
