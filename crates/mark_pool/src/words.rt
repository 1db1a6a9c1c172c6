//! Bits of a word.
ghost use Rattle.std.specs.Int.{bit_at};
ghost use Rattle.std.specs.Prelude.{◌≡◌, true, ◌==◌, ℕ, ◌+◌, ◌*◌, ◌^◌, ◌<◌};

use object_graph::MOST_SLOTS;

/// The bit of a slot.
#[inline(always)]
pub(crate) fn mask(slot: u16) -> u64
    requires { slot < MOST_SLOTS }
    ensures { result ≡ 2 ^ slot }
{
    1 << slot
}

/// The number of the word of this kind of a page.
#[inline(always)]
pub(crate) fn word_of(page: u32, kind: usize) -> usize
    requires { kind < 3 }
    ensures { result ≡ 3 * page + kind }
{
    3 * page as usize + kind
}

/// Whether the bit of a slot is 0.
#[inline(always)]
pub(crate) fn is_clear(word: u64, slot: u16) -> bool
    requires { slot < MOST_SLOTS }
    ensures { result ≡ (bit_at word slot == 0) }
{
    word & mask(slot) == 0
}

/// The bits that are 1 in the first word and 0 in the second.
pub(crate) fn open_of(marked: u64, scanned: u64) -> u64
    requires { (slot : ℕ) → bit_at marked slot ≡ 1 → slot < MOST_SLOTS }
    ensures marked { (slot : ℕ) → bit_at result slot ≡ 1 → bit_at marked slot ≡ 1 }
    ensures unscanned { (slot : ℕ) → bit_at result slot ≡ 1 → bit_at scanned slot ≡ 0 }
    ensures all { result ≡ 0 → (slot : ℕ) → bit_at marked slot ≡ 1 → bit_at scanned slot ≡ 1 }
{
    marked & !scanned
}

/// The place of the lowest 1.
pub(crate) fn lowest(word: u64) -> u16
    requires { 0 < word }
    ensures { bit_at word result ≡ 1 }
{
    word.trailing_zeros() as u16
}

/// The word without its lowest 1.
pub(crate) fn without_lowest(word: u64) -> u64
    requires { 0 < word }
    ensures { (slot : ℕ) → bit_at result slot ≡ 1 → bit_at word slot ≡ 1 }
{
    word & (word - 1)
}
