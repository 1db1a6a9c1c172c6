//! Sets of pages.
ghost use Rattle.std.specs.Prelude.{◌≡◌, ◌≢◌, ℕ, ◌+◌, ◌*◌, ◌<◌, ◌≤◌, ◌||◌, ◌==◌, ◌++◌, ◌∷◌, [], true, false, IfOk, length, slice_index, vec_capacity, vec_len, if◌then◌else◌};
ghost use Rattle.std.specs.List.{All};
ghost use Rattle.page_locks.specs.Sets.{in_set, is_among, HasRoom};

use object_graph::Memory;
use std::alloc::Global;
use std::marker::Model;

/// A set of pages. Contracts see its words, whose bits are the pages. The numbers of the words that
/// aren't 0 are kept too, so that who goes over the set looks at no other word. No call but `empty`
/// takes memory.
#[derive(Drop)]
pub struct PageSet {
    words: Vec<u64>,
    used: Vec<u32>,
}

impl Model for PageSet {
    ghost use Rattle.std.specs.Prelude.{ℕ, ◌≤◌, List, length, vec_capacity};
    ghost use Rattle.page_locks.specs.Sets.{AreUsed};

    ghost Value = { List ℕ };

    ghost view = { λ s. s.words.items };

    ghost invariant = { λ s. (length s.words.items ≤ vec_capacity s.used) × AreUsed s.words.items s.used.items };
}

impl PageSet {
    /// An empty set with room for the pages below a count.
    pub fn empty(alloc: Global, pages: u32) -> Result<PageSet, Memory>
        ensures none { IfOk result (λ set. (p : ℕ) → in_set set p ≡ false) }
        ensures room { IfOk result (HasRoom pages) }
    {
        let count = pages.div_ceil(64) as usize;
        let words = vec![in alloc; 0; count]?;
        let used = Vec::with_capacity(alloc, count)?;
        Ok(PageSet { words, used })
    }

    /// The numbers of the words that aren't 0.
    pub fn used(&self) -> &[u32]
        ensures within { All (λ at. at < length self.now) result.now }
        ensures all { (at : ℕ) → slice_index self.now at ≢ 0 → is_among result.now at ≡ true }
    {
        &self.used
    }

    pub fn word(&self, at: usize) -> u64
        requires { at < length self.now }
        ensures { result ≡ slice_index self.now at }
    {
        self.words[at]
    }

    pub fn insert(&mut self, page: u32)
        requires { page < 64 * length self.old }
        ensures added { (p : ℕ) → in_set self.new p ≡ (in_set self.old p || (p == page)) }
        ensures room { length self.new ≡ length self.old }
    {
        let at = (page / 64) as usize;
        let word = self.words[at];
        note_word(&mut self.used, page / 64, word);
        self.words[at] = word | (1 << (page % 64));
    }

    pub fn clear(&mut self)
        ensures none { (p : ℕ) → in_set self.new p ≡ false }
        ensures room { length self.new ≡ length self.old }
    {
        clear_words(&mut self.words, &self.used);
        self.used.clear();
    }
}

/// Notes the number of a word that is no longer 0.
fn note_word(used: &mut Vec<u32>, at: u32, word: u64)
    requires { word ≡ 0 → vec_len used.old + 1 ≤ vec_capacity used.old }
    ensures noted { used.new.items ≡ (if word == 0 then used.old.items ++ at ∷ [] else used.old.items) }
    ensures capacity { vec_capacity used.new ≡ vec_capacity used.old }
{
    if word == 0 {
        used.push_reserved(at);
    }
}

/// Makes these words 0.
fn clear_words(words: &mut [u64], used: &[u32])
    requires { All (λ at. at < length words.old) used.now }
    ensures cleared { (at : ℕ) → slice_index words.new at ≡ (if is_among used.now at then 0 else slice_index words.old at) }
    ensures length { length words.new ≡ length words.old }
{
    'used: for at in used {
        words[*at as usize] = 0;
    }
}
