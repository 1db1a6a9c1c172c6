//! What a record is of.

/// What a record is of.
#[derive(Clone, Copy, Debug, PartialEq, Eq)]
pub enum Kind {
    /// What a transaction wrote.
    Commit,
    /// The slots of one page that were freed.
    Sweep,
}
