//! The quick test of the fields of bytes.
ghost use Rattle.std.specs.Prelude.{◌≡◌, ℕ, ◌+◌, ◌*◌, ◌≤◌, ◌<◌, ◌==◌, ◌||◌, Bool, true, None, length, IsTrue};
ghost use Rattle.std.specs.List.{flat_map};
ghost use Rattle.std.specs.Int.{w64};
ghost use Rattle.object_graph.specs.Slots.{below};
ghost use Rattle.page_image.specs.Images.{slot_size};
ghost use Rattle.page_image.specs.Fields.{number_in_bytes, is_reference, first_wrong, header_fields, slot_fields, fields_of_slot, page_fields};

use crate::layout::{HEADER_SIZE, NUMBER, REFERENCE_SIZE, REFERENCES, fields, piece, slots};
use crate::numbers::{u16_at, u32_at, u64_at};
use object_graph::{MOST_PAGES, MOST_SLOTS, OBJECT_FIELDS, SLOTS_PER_PAGE};

/// Whether a number stands for a reference of a slot.
pub(crate) fn is_reference_of(in_use: bool, number: u64) -> bool
    ensures { result ≡ is_reference in_use number }
{
    number == 0
        || (in_use
            && (number >> 32) < MOST_PAGES as u64
            && ((number >> 16) & 0xffff) < MOST_SLOTS as u64
            && 1 <= (number & 0xffff))
}

/// Whether so many words of 8 bytes are zero.
fn are_zero(bytes: &[u8], from: usize, words: usize) -> bool
    requires within { from + 8 * words ≤ length bytes.now }
    ensures { IsTrue result → (i : ℕ) → i < words → number_in_bytes w64 bytes.now (from + 8 * i) ≡ 0 }
{
    for i in 0..words {
        if u64_at(bytes, from + 8 * i) != 0 {
            return false;
        }
    }
    true
}

/// Whether so many references of an object are none or names.
fn are_references(bytes: &[u8], count: usize) -> bool
    requires within { 16 + 8 * count ≤ length bytes.now }
    ensures { IsTrue result → (i : ℕ) → i < count → is_reference true (number_in_bytes w64 bytes.now (16 + 8 * i)) ≡ true }
{
    for i in 0..count {
        if !is_reference_of(true, u64_at(bytes, REFERENCES + REFERENCE_SIZE * i)) {
            return false;
        }
    }
    true
}

/// Whether the fields of a slot with so many references are right.
fn is_slot(bytes: &[u8], fields: usize) -> bool
    requires long { length bytes.now ≡ slot_size }
    requires fields { fields ≡ OBJECT_FIELDS }
    ensures { IsTrue result → first_wrong (slot_fields bytes.now) ≡ None }
{
    if bytes[1] != 0 || u32_at(bytes, 4) != 0 {
        return false;
    }
    if bytes[0] == 0 {
        return are_zero(bytes, NUMBER, 1 + fields);
    }
    if bytes[0] != 1 || u16_at(bytes, 2) == 0 {
        return false;
    }
    are_references(bytes, fields)
}

/// Whether the fields before the slots are right.
fn is_header(bytes: &[u8; 1024]) -> bool
    ensures { IsTrue result → first_wrong (header_fields bytes.now) ≡ None }
{
    if u32_at(bytes, 0) != 0x4350_4731 || u32_at(bytes, 4) >= MOST_PAGES {
        return false;
    }
    if usize::from(bytes[8]) != fields(bytes) || u16::from(bytes[9]) != slots(bytes) {
        return false;
    }
    if u16_at(bytes, 10) != 0 || u32_at(bytes, 12) != 0 {
        return false;
    }
    are_zero(bytes, 16, (HEADER_SIZE - 16) / 8)
}

/// Whether the fields of each slot are right.
fn are_slots(bytes: &[u8; 1024]) -> bool
    ensures { IsTrue result → first_wrong (flat_map (fields_of_slot bytes.now) (below SLOTS_PER_PAGE)) ≡ None }
{
    for slot in 0..slots(bytes) {
        if !is_slot(piece(bytes, slot), fields(bytes)) {
            return false;
        }
    }
    true
}

/// Whether no field of the bytes is wrong. It reads words of 8 bytes, and tells no place.
pub(crate) fn has_no_wrong_field(bytes: &[u8; 1024]) -> bool
    ensures { IsTrue result → first_wrong (page_fields bytes.now) ≡ None }
{
    if !is_header(bytes) {
        return false;
    }
    are_slots(bytes)
}
