//! Locks on pages, shared and exclusive, held by transactions.
#![tactic(auto)]

mod admitted;
mod holders;
mod locks;
mod page_set;
mod seats;
#[cfg(test)]
mod tests;

pub use locks::{Busy, Locks, TooMany};
