//! Scripts of several lanes: each lane runs its lines in a thread of its own, over one store.
#![tactic(auto)]

mod chronicle;
mod command;
mod judging;
mod reading;
mod running;

pub use command::top_lanes;
pub use judging::MOST_ENTRIES;

#[cfg(test)]
mod tests;
