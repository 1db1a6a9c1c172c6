//! Pages: their values, and the one spelling of each in 1,024 bytes.
#![tactic(auto)]

mod check;
mod laws;
mod layout;
mod numbers;
mod page;
mod page_copy;
mod read;
mod write;
mod wrong;

pub use laws::{each_page_has_one_spelling, each_page_is_read_from_its_spelling};
pub use layout::{HEADER_SIZE, REFERENCE_SIZE, REFERENCES};
pub use page::{BadPage, Page, PageFull};
pub use page_copy::PageCopy;

#[cfg(test)]
mod tests;
