//! The first wrong field of bytes.
ghost use Rattle.std.specs.Prelude.{◌≡◌, ◌+◌, ◌<◌, length, IfSome};
ghost use Rattle.std.specs.List.{flat_map, AllByRecursion};
ghost use Rattle.object_graph.specs.Slots.{below};
ghost use Rattle.page_image.specs.Images.{slot_size};
ghost use Rattle.page_image.specs.Fields.{header_fields, slot_fields, fields_of_slot, first_wrong, page_fields, zeros};

use crate::check::{has_no_wrong_field, is_reference_of};
use crate::layout::{fields, piece, slot_start, slots};
use crate::numbers::{u16_at, u32_at, u64_at};
use object_graph::{MOST_PAGES, SLOTS_PER_PAGE};

/// The first wrong field of a table of fields.
fn first_of(fields: &[(u32, bool)]) -> Option<u32>
    requires { AllByRecursion (λ f. f.0 < 1024) fields.now }
    ensures first { result ≡ first_wrong fields.now }
    ensures within { IfSome result (λ at. at < 1024) }
{
    for field in fields {
        if !field.1 {
            return Some(field.0);
        }
    }
    None
}

/// The first wrong field of a slot, within it.
fn wrong_in_slot(bytes: &[u8]) -> Option<u32>
    requires { length bytes.now ≡ slot_size }
    ensures first { result ≡ first_wrong (slot_fields bytes.now) }
    ensures within { IfSome result (λ at. at < 1024) }
{
    let in_use = bytes[0] == 1;
    let table = [
        (0, bytes[0] <= 1),
        (1, bytes[1] == 0),
        (2, !in_use || 1 <= u16_at(bytes, 2)),
        (4, bytes[4] == 0),
        (5, bytes[5] == 0),
        (6, bytes[6] == 0),
        (7, bytes[7] == 0),
        (8, in_use || u64_at(bytes, 8) == 0),
        (16, is_reference_of(in_use, u64_at(bytes, 16))),
        (24, is_reference_of(in_use, u64_at(bytes, 24))),
        (32, is_reference_of(in_use, u64_at(bytes, 32))),
        (40, is_reference_of(in_use, u64_at(bytes, 40))),
    ];
    first_of(&table)
}

/// The first wrong field among the slots, within the page.
fn wrong_in_slots(bytes: &[u8; 1024]) -> Option<u32>
    ensures { result ≡ first_wrong (flat_map (fields_of_slot bytes.now) (below SLOTS_PER_PAGE)) }
{
    for slot in 0..slots(bytes) {
        match wrong_in_slot(piece(bytes, slot)) {
            Some(at) => return Some(slot_start(bytes, slot) as u32 + at),
            None => {}
        }
    }
    None
}

/// The first of the header's zero bytes that is none.
fn wrong_zero(bytes: &[u8; 1024]) -> Option<u32>
    ensures { result ≡ first_wrong (zeros bytes.now 10 54) }
{
    for i in 0..54 {
        if bytes[10 + i] != 0 {
            return Some(10 + i as u32);
        }
    }
    None
}

/// The first wrong field before the slots.
fn wrong_in_header(bytes: &[u8; 1024]) -> Option<u32>
    ensures { result ≡ first_wrong (header_fields bytes.now) }
{
    let table = [
        (0, u32_at(bytes, 0) == 0x4350_4731),
        (4, u32_at(bytes, 4) < MOST_PAGES),
        (8, usize::from(bytes[8]) == fields(bytes)),
        (9, u16::from(bytes[9]) == slots(bytes)),
    ];
    match first_of(&table) {
        Some(at) => Some(at),
        None => wrong_zero(bytes),
    }
}

/// The first wrong field of a page, looked for only where the quick test fails.
pub(crate) fn first_wrong_field(bytes: &[u8; 1024]) -> Option<u32>
    ensures { result ≡ first_wrong (page_fields bytes.now) }
{
    if has_no_wrong_field(bytes) {
        return None;
    }
    match wrong_in_header(bytes) {
        Some(at) => Some(at),
        None => wrong_in_slots(bytes),
    }
}
