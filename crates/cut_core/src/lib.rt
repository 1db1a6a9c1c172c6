//! The store as one machine.
#![tactic(auto)]

mod closing;
mod commit;
mod copying;
mod cutting;
mod held;
mod kept_world;
mod machine;
mod reopen;
mod store;
mod sweep;
#[cfg(test)]
mod tests;
mod touched;
mod transact;

pub use kept_world::KeptWorld;
pub use machine::Core;
