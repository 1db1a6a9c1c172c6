//! The frames of the pages: of each its current image, and the committed one.
#![tactic(auto)]

mod buffer;
mod frame;
#[cfg(test)]
mod tests;

pub use buffer::Buffer;
pub use frame::Frame;
