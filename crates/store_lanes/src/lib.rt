//! The lanes of a script beside each other, each in a thread of its own, over one desk.
#![tactic(auto)]

mod collect;
mod lane;
mod post;
mod step;

pub use lane::{LANES, run_lanes};
pub use post::{DISK_CALL, MOST_IN_TURN};

#[cfg(test)]
mod tests;
