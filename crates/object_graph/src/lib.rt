//! Names, objects, the plain graph that never frees, and the store's calls, replies and refusals.
#![tactic(auto)]

mod calls;
mod graph;
mod limits;
mod memory;
mod names;
mod reach;
mod sizes;
mod slots;
mod steps;
#[cfg(test)]
mod tests;

pub use calls::{Call, Entry, Phase, Refusal, Reply};
pub use graph::Graph;
pub use limits::{
    LAST_GENERATION, MOST_COUNTED, MOST_KNOWN, MOST_OPEN, MOST_PAGES, MOST_SLOTS, MOST_WRITTEN,
};
pub use memory::Memory;
pub use names::{Name, OBJECT_FIELDS, Object, ROOT, names_and_numbers_are_one_to_one};
pub use reach::reached;
pub use sizes::SLOTS_PER_PAGE;
pub use slots::{SlotSet, sets_are_their_slots};
pub use steps::Steps;
