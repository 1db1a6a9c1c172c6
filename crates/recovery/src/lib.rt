//! The store file: laying one, opening one, and the checkpoint that sends its journal home
//! (FORMATS.md, "Store file").
#![tactic(auto)]

mod blocks;
mod check;
mod faults;
mod homes;
mod laying;
mod making;
mod opening;
mod pages;
mod reached;
mod sizes;
mod super_block;
#[cfg(test)]
mod tests;
mod turning;

pub use check::check_pages;
pub use faults::{LayFault, MakeFault, OpenFault, PagesFault, SuperFault};
pub use laying::lay;
pub use making::make;
pub use opening::{Opened, open_store};
pub use super_block::{Super, read_super};
pub use turning::checkpoint;
