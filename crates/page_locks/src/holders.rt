//! Who holds a page: a word for each mode, whose bits are the places of the transactions.
ghost use Rattle.std.specs.Prelude.{◌≡◌, ℕ, ◌*◌, ◌+◌, ◌/◌, ◌%◌, ◌<◌, ◌≤◌, ◌&&◌, ◌||◌, ◌==◌, not, length};
ghost use Rattle.page_locks.specs.Sets.{has_bit, in_set};
ghost use Rattle.page_locks.specs.Words.{word_of, is_held, is_mode, conflicts};

use crate::page_set::PageSet;

/// How a page is held.
#[derive(Clone, Copy, Debug, PartialEq, Eq)]
pub enum Mode {
    Shared,
    Exclusive,
}

/// The places of those who hold a page shared, and exclusive.
#[derive(Clone, Copy, Debug)]
pub struct Holders {
    pub shared: u64,
    pub exclusive: u64,
}

/// A page that nobody holds.
pub const NOBODY: Holders = Holders {
    shared: 0,
    exclusive: 0,
};

impl Holders {
    /// The places that are in the way of one who wants the page.
    pub fn in_way(&self, place: usize, mode: Mode) -> u64
        requires { place < 64 }
        ensures { (q : ℕ) → q < 64 → has_bit result q ≡ (not (q == place) && conflicts mode self.now q) }
    {
        let others = match mode {
            Mode::Shared => self.exclusive,
            Mode::Exclusive => self.shared | self.exclusive,
        };
        others & !(1 << place)
    }

    pub fn add(&mut self, place: usize, mode: Mode)
        requires { place < 64 }
        ensures { (m : _) (q : ℕ) → has_bit (word_of m self.new) q ≡ (has_bit (word_of m self.old) q || (is_mode m mode && (q == place))) }
    {
        match mode {
            Mode::Shared => self.shared = self.shared | (1 << place),
            Mode::Exclusive => self.exclusive = self.exclusive | (1 << place),
        }
    }

    pub fn remove(&mut self, place: usize)
        requires { place < 64 }
        ensures { (m : _) (q : ℕ) → q < 64 → has_bit (word_of m self.new) q ≡ (has_bit (word_of m self.old) q && not (q == place)) }
    {
        self.shared = self.shared & !(1 << place);
        self.exclusive = self.exclusive & !(1 << place);
    }
}

/// Takes a place from the holders of the pages of a set.
pub fn vacate(holders: &mut [Holders], pages: &PageSet, place: usize)
    requires place { place < 64 }
    requires few { length pages.now ≤ 67108864 }
    ensures vacated { (m : _) (page q : ℕ) → q < 64 → is_held m holders.new page q ≡ (is_held m holders.old page q && not ((q == place) && in_set pages.now page)) }
    ensures count { length holders.new ≡ length holders.old }
{
    'used: for at in pages.used() {
        let at = *at as usize;
        vacate_word(holders, at, pages.word(at), place);
    }
}

/// Takes a place from the holders of the pages of a word.
fn vacate_word(holders: &mut [Holders], at: usize, word: u64, place: usize)
    requires place { place < 64 }
    requires at { at < 67108864 }
    ensures vacated { (m : _) (page q : ℕ) → q < 64 → is_held m holders.new page q ≡ (is_held m holders.old page q && not ((q == place) && ((page / 64 == at) && has_bit word (page % 64)))) }
    ensures count { length holders.new ≡ length holders.old }
{
    let mut left = word;
    'bits: while left != 0 {
        let bit = left.trailing_zeros();
        let page = 64 * at + bit as usize;
        if page < holders.len() {
            holders[page].remove(place);
        }
        left = left & !(1 << bit);
    }
}
