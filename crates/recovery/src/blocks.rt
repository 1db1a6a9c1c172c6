//! The blocks of a store that is laid.
ghost use Rattle.std.specs.Prelude.{◌≡◌, ◌≤◌, ◌+◌, ◌-◌, ◌*◌, ◌++◌, length, take, drop, replicate};
ghost use Rattle.std.specs.List.{AllByRecursion, flat_map};
ghost use Rattle.page_image.specs.Spelling.{page_bytes};
ghost use Rattle.redo_journal.specs.Record.{ReadsBack};
ghost use Rattle.redo_journal.specs.Sending.{empty_area};
ghost use Rattle.image_model.specs.Super.{super_bytes};

use crate::sizes::{PIECE_PAGES, PIECE_SIZE};
use page_image::Page;
use redo_journal::PAGE_SIZE;

/// Writes bytes at a place: what is before and behind them stays.
fn put(out: &mut [u8], at: usize, bytes: &[u8])
    requires { at + length bytes.now ≤ length out.old }
    ensures front { take (at + length bytes.now) out.new ≡ take at out.old ++ bytes.now }
    ensures rest { drop (at + length bytes.now) out.new ≡ drop (at + length bytes.now) out.old }
    ensures long { length out.new ≡ length out.old }
{
    out[at..at + bytes.len()].copy_from_slice(bytes);
}

/// The super block of a store of so many pages, whose area 0 is the active one.
pub(crate) fn super_block(pages: u32) -> [u8; 1024]
    ensures { result ≡ super_bytes pages }
{
    let mut block = [0; PAGE_SIZE];
    put(&mut block, 0, b"CUTSTORE");
    put(&mut block, 8, &1u32.to_be_bytes());
    put(&mut block, 12, &pages.to_be_bytes());
    put(&mut block, 16, &[0; 1008]);
    block
}

/// The first bytes of an area without records.
pub(crate) fn area_start(commits: u64) -> [u8; PIECE_SIZE]
    ensures { result ≡ empty_area commits ++ replicate (PIECE_SIZE - 9) 0 }
{
    let mut block = [0; PIECE_SIZE];
    put(&mut block, 0, &commits.to_be_bytes());
    block
}

/// Writes the homes of these pages, one behind the other.
pub(crate) fn spell(pages: &[Page], out: &mut [u8; PIECE_SIZE])
    requires { length pages.now ≤ PIECE_PAGES }
    ensures bytes { take (PAGE_SIZE * length pages.now) out.new ≡ flat_map page_bytes pages.now }
    ensures back { AllByRecursion ReadsBack pages.now }
{
    'pages: for at in 0..pages.len() {
        let mut home = [0; PAGE_SIZE];
        pages[at].encode(&mut home);
        put(out, PAGE_SIZE * at, &home);
    }
}
