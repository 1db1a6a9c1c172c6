//! The sizes of a store file's parts, each once (FORMATS.md, "Journal"). Clauses and definitions cite
//! these constants.
use object_graph::MOST_WRITTEN;

/// The bytes before the areas.
pub const HEAD_SIZE: u64 = 1_024;

/// The length of an area.
pub const AREA_SIZE: u64 = 262_144;

/// Where the homes begin in the store file, and the areas end.
pub const HOMES_START: u64 = HEAD_SIZE + 2 * AREA_SIZE;

/// The bytes of a page's image.
pub const PAGE_SIZE: usize = 1_024;

/// The bytes of a page in a record: its number and its image.
pub const IMAGE_SIZE: usize = 4 + PAGE_SIZE;

/// The bytes of a record around its pages: kind, count and the gate behind it.
pub const FRAME_SIZE: usize = 6;

/// The bytes of the longest record with its gate.
pub const LONGEST_RECORD: usize = FRAME_SIZE + IMAGE_SIZE * MOST_WRITTEN;

/// How many images an area has at most, since each takes so many bytes of it.
pub const MOST_IMAGES: usize = AREA_SIZE as usize / IMAGE_SIZE;
