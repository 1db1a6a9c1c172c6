//! The calls of open transactions, under page locks, over the frames of a store's pages.
#![tactic(auto)]

mod checking;
mod finishing;
mod known;
mod laws;
mod open;
mod reading;
mod table;
#[cfg(test)]
mod tests;
mod transactions;
mod writing;

pub use laws::{each_call_leaves_them_ready, what_they_do_not_see_is_nothing_to_them};
pub use transactions::Transactions;
