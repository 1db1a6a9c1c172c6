//! How much a page of this version holds. Above the crate of pages both are asked of the page, or of the
//! object.

/// The slots of a page.
pub const SLOTS_PER_PAGE: usize = 20;
