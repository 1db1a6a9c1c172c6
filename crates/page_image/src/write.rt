//! Changes of the bytes of a page.
ghost use Rattle.std.specs.Prelude.{◌≡◌, ◌+◌, ◌*◌, ◌≤◌, ◌<◌, ◌++◌, length, drop, replicate, false};
ghost use Rattle.std.specs.Int.{w64, to_be_bytes};
ghost use Rattle.object_graph.specs.SlotParts.{SlotParts};
ghost use Rattle.page_image.specs.Images.{slot_size};
ghost use Rattle.page_image.specs.Slots.{IsReference};
ghost use Rattle.page_image.specs.Spelling.{header_bytes, slot_bytes, reference_number};
ghost use Rattle.page_image.specs.Fields.{slot_start};
ghost use Rattle.page_image.specs.Images.{overwritten};

use crate::layout::{
    HEADER_SIZE, NUMBER, REFERENCE_SIZE, REFERENCES, fields, slot_size, slot_start, slots,
};
use object_graph::{Name, OBJECT_FIELDS, SLOTS_PER_PAGE};

/// Writes bytes at a place.
fn put(out: &mut [u8; 1024], at: usize, bytes: &[u8])
    requires { at + length bytes.now ≤ 1024 }
    ensures { out.new ≡ overwritten out.old at bytes.now }
{
    out[at..at + bytes.len()].copy_from_slice(bytes);
}

/// Writes zeros at a place.
fn put_zeros(out: &mut [u8; 1024], at: usize, count: usize)
    requires { at + count ≤ 1024 }
    ensures { out.new ≡ overwritten out.old at (replicate count 0) }
{
    out[at..at + count].fill(0);
}

/// Writes what comes before the slots over zeros.
pub(crate) fn put_header(out: &mut [u8; 1024], number: u32)
    requires { out.old ≡ replicate 1024 0 }
    ensures { out.new ≡ header_bytes number ++ replicate (SLOTS_PER_PAGE * slot_size) 0 }
{
    let (fields, slots) = (fields(out) as u8, slots(out) as u8);
    put(out, 0, b"CPG1");
    put(out, 4, &number.to_be_bytes());
    put(out, 8, &[fields, slots]);
}

/// Writes the number of the object in a slot.
pub(crate) fn put_number(out: &mut [u8; 1024], slot: u16, number: u64)
    requires { slot < SLOTS_PER_PAGE }
    ensures { out.new ≡ overwritten out.old (slot_start slot + 8) (to_be_bytes w64 number) }
{
    let at = slot_start(out, slot) + NUMBER;
    put(out, at, &number.to_be_bytes());
}

/// Writes a reference of the object in a slot.
pub(crate) fn put_reference(out: &mut [u8; 1024], slot: u16, field: usize, target: &Option<Name>)
    requires slot { slot < SLOTS_PER_PAGE }
    requires field { field < OBJECT_FIELDS }
    ensures written { out.new ≡ overwritten out.old (slot_start slot + (16 + 8 * field)) (to_be_bytes w64 (reference_number target.now)) }
    ensures fits { IsReference target.now }
{
    let at = slot_start(out, slot) + REFERENCES + REFERENCE_SIZE * field;
    put(out, at, &number_of(target).to_be_bytes());
}

/// The number of a reference: 0 for none.
fn number_of(reference: &Option<Name>) -> u64
    ensures number { result ≡ reference_number reference.now }
    ensures fits { IsReference reference.now }
{
    match reference {
        Some(name) => name.copy().to_u64(),
        None => 0,
    }
}

/// Makes a slot one with number 0 and no references.
pub(crate) fn put_bare(out: &mut [u8; 1024], slot: u16, in_use: bool, generation: u16)
    requires { slot < SLOTS_PER_PAGE }
    ensures { out.new ≡ overwritten out.old (slot_start slot) (slot_bytes (record { in_use = in_use; generation = generation; number = 0; refs = replicate OBJECT_FIELDS None })) }
{
    let start = slot_start(out, slot);
    let rest = slot_size(out) - NUMBER;
    let [high, low] = generation.to_be_bytes();
    put(out, start, &[u8::from(in_use), 0, high, low, 0, 0, 0, 0]);
    put_zeros(out, start + NUMBER, rest);
}
