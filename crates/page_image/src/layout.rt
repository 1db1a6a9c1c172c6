//! Where the slots of a page lie, and how many references each has.
ghost use Rattle.std.specs.Prelude.{◌≡◌, ◌+◌, ◌≤◌, ◌<◌, length};
ghost use Rattle.page_image.specs.Images.{slot_size};
ghost use Rattle.page_image.specs.Fields.{slot_start, slot_piece};

use object_graph::{OBJECT_FIELDS, SLOTS_PER_PAGE};

/// The bytes of a page before its slots (FORMATS.md, "Pages").
pub const HEADER_SIZE: usize = 64;

/// The bytes of a slot before its number, and before its references.
pub(crate) const NUMBER: usize = 8;

pub const REFERENCES: usize = 16;

/// The bytes of a reference.
pub const REFERENCE_SIZE: usize = 8;

/// The slots of a page.
pub(crate) fn slots(_bytes: &[u8; 1024]) -> u16
    ensures { result ≡ SLOTS_PER_PAGE }
{
    SLOTS_PER_PAGE as u16
}

/// The references of an object on a page.
pub(crate) fn fields(_bytes: &[u8; 1024]) -> usize
    ensures { result ≡ OBJECT_FIELDS }
{
    OBJECT_FIELDS
}

/// The bytes of a slot of a page.
pub(crate) fn slot_size(bytes: &[u8; 1024]) -> usize
    ensures { result ≡ slot_size }
{
    REFERENCES + REFERENCE_SIZE * fields(bytes)
}

/// Where a slot of a page begins.
pub(crate) fn slot_start(bytes: &[u8; 1024], slot: u16) -> usize
    requires { slot < SLOTS_PER_PAGE }
    ensures start { result ≡ slot_start slot }
    ensures within { result + slot_size ≤ 1024 }
{
    HEADER_SIZE + slot_size(bytes) * usize::from(slot)
}

/// The bytes of one slot of a page.
pub(crate) fn piece(bytes: &[u8; 1024], slot: u16) -> &[u8]
    requires { slot < SLOTS_PER_PAGE }
    ensures piece { result.now ≡ slot_piece bytes.now slot }
    ensures long { length result.now ≡ slot_size }
{
    let (start, size) = (slot_start(bytes, slot), slot_size(bytes));
    bytes.split_at(start).1.split_at(size).0
}
