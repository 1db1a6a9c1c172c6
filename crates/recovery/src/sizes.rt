//! Places and lengths in the store file (FORMATS.md, "Store file").
ghost use Rattle.std.specs.Prelude.{◌≡◌};
ghost use Rattle.redo_journal.specs.Homes.{home_start, store_size};

use object_graph::OBJECT_FIELDS;
use page_image::{HEADER_SIZE, REFERENCE_SIZE, REFERENCES};
use redo_journal::{AREA_SIZE, HOMES_START, PAGE_SIZE};

/// So many homes are read and written at once.
pub(crate) const PIECE_PAGES: usize = 64;

/// The bytes of so many homes.
pub(crate) const PIECE_SIZE: usize = PIECE_PAGES * PAGE_SIZE;

/// An area has so many pieces of these bytes.
pub(crate) const AREA_PIECES: u64 = AREA_SIZE / PIECE_SIZE as u64;

/// The length of a slot, which ends with its references.
pub(crate) const SLOT_SIZE: usize = REFERENCES + REFERENCE_SIZE * OBJECT_FIELDS;

/// Where the slot of the root begins.
pub(crate) const ROOT_PLACE: u64 = HOMES_START + HEADER_SIZE as u64;

/// Where the home of a page begins.
pub(crate) fn home_of(page: u32) -> u64
    ensures { result ≡ home_start page }
{
    HOMES_START + PAGE_SIZE as u64 * u64::from(page)
}

/// The bytes of a store of so many pages.
pub(crate) fn size_of(pages: u32) -> u64
    ensures { result ≡ store_size pages }
{
    HOMES_START + PAGE_SIZE as u64 * u64::from(pages)
}
