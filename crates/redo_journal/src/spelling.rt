//! Writing a record, from its kind to its next gate.
ghost use Rattle.std.specs.Prelude.{◌≡◌, ◌≤◌, ◌+◌, ◌*◌, ◌++◌, ◌∷◌, length, take};
ghost use Rattle.std.specs.List.{AllByRecursion};
ghost use Rattle.std.specs.Int.{w32, to_be_bytes};
ghost use Rattle.redo_journal.specs.Record.{ReadsBack, image_bytes, kind_byte, spelled_with_gate};

use crate::kind::Kind;
use crate::sizes::{FRAME_SIZE, IMAGE_SIZE};
use object_graph::MOST_WRITTEN;
use page_image::Page;

/// Writes bytes at a place: what is before it stays.
fn put(out: &mut [u8], at: usize, bytes: &[u8])
    requires { at + length bytes.now ≤ length out.old }
    ensures front { take (at + length bytes.now) out.new ≡ take at out.old ++ bytes.now }
    ensures long { length out.new ≡ length out.old }
{
    out[at..at + bytes.len()].copy_from_slice(bytes);
}

/// Writes a page with its number.
fn put_image(out: &mut [u8], at: usize, image: &Page)
    requires { at + IMAGE_SIZE ≤ length out.old }
    ensures front { take (at + IMAGE_SIZE) out.new ≡ take at out.old ++ image_bytes image.now }
    ensures long { length out.new ≡ length out.old }
    ensures again { ReadsBack image.now }
{
    put(out, at, &image.number().to_be_bytes());
    put(out, at + 4, image.bytes());
}

/// Writes what stands before the pages.
fn put_head(out: &mut [u8], kind: Kind, count: u32)
    requires { 5 ≤ length out.old }
    ensures front { take 5 out.new ≡ kind_byte kind ∷ to_be_bytes w32 count }
    ensures long { length out.new ≡ length out.old }
{
    let byte = match kind {
        Kind::Commit => 1,
        Kind::Sweep => 2,
    };
    put(out, 0, &[byte]);
    put(out, 1, &count.to_be_bytes());
}

/// Writes the record with a closed gate behind it.
pub(crate) fn put_record(out: &mut [u8], kind: Kind, images: &[Page])
    requires long { FRAME_SIZE + IMAGE_SIZE * length images.now ≤ length out.old }
    requires few { length images.now ≤ MOST_WRITTEN }
    ensures front { take (FRAME_SIZE + IMAGE_SIZE * length images.now) out.new ≡ spelled_with_gate (record { kind = kind; images = images.now }) }
    ensures long { length out.new ≡ length out.old }
    ensures again { AllByRecursion ReadsBack images.now }
{
    put_head(out, kind, images.len() as u32);
    for i in 0..images.len() {
        put_image(out, 5 + IMAGE_SIZE * i, &images[i]);
    }
    put(out, 5 + IMAGE_SIZE * images.len(), &[0]);
}
