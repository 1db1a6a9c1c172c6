//! The core of a run, with the cut that it closed.
#![tactic(auto)]

mod collection;
mod machine;
mod marking;
mod promises;

pub use collection::collection_call;
pub use machine::Machine;

#[cfg(test)]
mod tests;
