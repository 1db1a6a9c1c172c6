//! The redo journal: two areas of records, each behind a gate. A record counts exactly where the gate
//! before it is open, and a closed gate stands behind the last record, on the disk before anything is
//! written behind it (FORMATS.md, "Journal").
#![tactic(auto)]

mod area;
mod faults;
mod fields;
mod gated;
mod home;
mod journal;
mod kind;
mod places;
mod replay;
mod scan;
mod sizes;
mod spelling;
#[cfg(test)]
mod tests;
#[cfg(test)]
mod tests_home;
#[cfg(test)]
mod tests_untold;
mod turn;

pub use faults::{AppendFault, AreaFault};
pub use journal::Journal;
pub use kind::Kind;
pub use replay::Replay;
pub use sizes::{
    AREA_SIZE, FRAME_SIZE, HEAD_SIZE, HOMES_START, IMAGE_SIZE, LONGEST_RECORD, MOST_IMAGES,
    PAGE_SIZE,
};
