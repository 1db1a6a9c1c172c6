//! Large valid runs of a store from a number.
#![tactic(auto)]

mod asking;
mod collection;
mod draws;
mod running;
mod summary;
mod transacting;

pub use asking::Stop;
pub use collection::PAGES;
pub use draws::Draws;
pub use running::{MOST_ROUNDS, generate};
pub use summary::{SUMMARY_ROOM, Tally};

#[cfg(test)]
mod tests;
