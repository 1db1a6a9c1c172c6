//! Values that contracts alone see, each known by what it was made from.
#![tactic(auto)]

mod tells;
mod value;

pub use tells::Tells;
pub use value::Told;

#[cfg(test)]
mod tests;
