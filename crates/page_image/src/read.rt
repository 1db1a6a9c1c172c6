//! What the bytes of a slot say.
ghost use Rattle.std.specs.Prelude.{◌≡◌, ◌<◌, ◌≤◌, None, length, slice_index_or};
ghost use Rattle.object_graph.specs.NameParts.{IsName};
ghost use Rattle.page_image.specs.Images.{slot_size};
ghost use Rattle.page_image.specs.Slots.{IsWholeSlot, IsReference, has_room};
ghost use Rattle.page_image.specs.Pages.{object_of};
ghost use Rattle.page_image.specs.Fields.{slot_of, numbered_name, reference_of};

use crate::layout::{NUMBER, REFERENCE_SIZE, REFERENCES};
use crate::numbers::{u16_at, u64_at};
use object_graph::{LAST_GENERATION, MOST_PAGES, MOST_SLOTS, Name, OBJECT_FIELDS, Object};

/// Whether an object is in use there.
pub(crate) fn in_use(slot: &[u8]) -> bool
    requires { length slot.now ≡ slot_size }
    ensures { result ≡ (slot_of slot.now).in_use }
{
    slot[0] == 1
}

/// The stored generation.
pub(crate) fn generation(slot: &[u8]) -> u16
    requires { length slot.now ≡ slot_size }
    ensures { result ≡ (slot_of slot.now).generation }
{
    u16_at(slot, 2)
}

/// Whether a new object can take it.
pub(crate) fn has_room(slot: &[u8]) -> bool
    requires { length slot.now ≡ slot_size }
    ensures { result ≡ has_room (slot_of slot.now) }
{
    !in_use(slot) && generation(slot) < LAST_GENERATION
}

/// The name with this number.
fn name_at(number: u64) -> Name
    requires { IsName (numbered_name number) }
    ensures { result ≡ numbered_name number }
{
    Name::at(
        (number >> 32) as u32,
        ((number >> 16) & 0xffff) as u16,
        (number & 0xffff) as u16,
    )
}

/// The reference that a number stands for.
#[inline(always)]
fn reference_at(number: u64) -> Option<Name>
    requires { IsReference (reference_of number) }
    ensures { result ≡ reference_of number }
{
    if number == 0 {
        None
    } else {
        Some(name_at(number))
    }
}

/// A reference of a slot.
#[inline(always)]
pub(crate) fn reference_in(slot: &[u8], field: u32) -> Option<Name>
    requires field { field < OBJECT_FIELDS }
    requires long { length slot.now ≡ slot_size }
    requires whole { IsWholeSlot (slot_of slot.now) }
    ensures { result ≡ slice_index_or (slot_of slot.now).refs field None }
{
    reference_at(u64_at(slot, REFERENCES + REFERENCE_SIZE * field as usize))
}

/// The object in a slot of a page.
#[inline(always)]
pub(crate) fn object_in(page: u32, at: u16, slot: &[u8]) -> Option<Object>
    requires page { page < MOST_PAGES }
    requires at { at < MOST_SLOTS }
    requires long { length slot.now ≡ slot_size }
    requires whole { IsWholeSlot (slot_of slot.now) }
    ensures { result ≡ object_of page at (slot_of slot.now) }
{
    if !in_use(slot) {
        return None;
    }
    let refs = [
        reference_at(u64_at(slot, REFERENCES)),
        reference_at(u64_at(slot, REFERENCES + REFERENCE_SIZE)),
        reference_at(u64_at(slot, REFERENCES + 2 * REFERENCE_SIZE)),
        reference_at(u64_at(slot, REFERENCES + 3 * REFERENCE_SIZE)),
    ];
    Some(Object {
        name: Name::at(page, at, generation(slot)),
        number: u64_at(slot, NUMBER),
        refs,
    })
}
