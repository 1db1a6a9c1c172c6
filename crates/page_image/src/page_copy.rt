//! A copy of a page for a cut.
use crate::page::Page;

/// A page as it stood at some moment, for a cut of page copies. It is a plain copy without memory
/// (MODEL.md, "The cut").
#[derive(Clone, Copy, Debug, PartialEq, Eq)]
pub struct PageCopy {
    /// The number of the page.
    pub page: u32,
    /// The page with what an open transaction wrote.
    pub current: Page,
    /// The committed page, where an open transaction wrote it.
    pub before: Option<Page>,
    /// The number of commits as it was taken.
    pub moment: u64,
    /// The number of the cut that was opened last as it was taken.
    pub cut: u64,
    /// How many published changes it reflects. A copy that the core makes itself has none.
    pub seen: u64,
}
