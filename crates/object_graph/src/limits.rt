//! The limits of the store, each once (ARCHITECTURE.md, "Limits"). Clauses and definitions cite these
//! constants.

/// How many pages a store may have.
pub const MOST_PAGES: u32 = 4_096;

/// How many slots of a page a name can tell apart.
pub const MOST_SLOTS: u16 = 40;

/// The generation after which a place has no further name.
pub const LAST_GENERATION: u16 = 65_535;

/// How many transactions may be open at once.
pub const MOST_OPEN: usize = 64;

/// How many pages one transaction may write.
pub const MOST_WRITTEN: usize = 64;

/// How many names one transaction may know.
pub const MOST_KNOWN: usize = 4_096;

/// How many commits there may be in all, and how many cuts.
pub const MOST_COUNTED: u64 = 1 << 48;
