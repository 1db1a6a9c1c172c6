//! The words of a line, read one after the other.
ghost use Rattle.std.specs.Prelude.{◌≡◌, ◌+◌, ◌-◌, ◌≤◌, IfOk, IfErr, IfSome, Some, true, false, length, option_map};
ghost use Rattle.object_graph.specs.Names.{root_name};
ghost use Rattle.object_graph.specs.NameParts.{IsName};
ghost use Rattle.script_lang.specs.Reading.{is_done, next_word, moved_to, stop, step_of, value_or, read, short_at, number_at, few_at, name_at, word_at};

use crate::line::{BadLine, LINE_LIMIT};
use crate::words::{few_in, name_in, number_in, short_in, split_at_byte};
use object_graph::{Name, ROOT};
use std::marker::Model;

/// What is left of a line. A word that isn't as it was asked for stops the reader at that place; from
/// then on it answers the least of each kind.
#[derive(Drop)]
pub struct Reader<'a> {
    left: &'a [u8],
    ended: bool,
    stopped: bool,
}

impl<'a> Model for Reader<'a> {
    ghost use Rattle.script_lang.specs.Reading.{Rest};

    ghost Value = { Rest };

    ghost view = { λ r. record { left = r.left.now; ended = r.ended; stopped = r.stopped } };
}

impl<'a> Reader<'a> {
    /// A reader before the first word of a line.
    pub fn new(line: &'a [u8]) -> Reader<'a>
        ensures { result ≡ moved_to (Some line.now) }
    {
        Reader {
            left: line,
            ended: false,
            stopped: false,
        }
    }

    /// A transaction, a page or a field.
    #[tactic(auto, unfolding(crate::specs::Reading::read))]
    #[inline(always)]
    pub fn short(&mut self) -> u32
        ensures value { result ≡ value_or 0 (read short_at self.old) }
        ensures left { self.new ≡ step_of (read short_at self.old) self.old }
    {
        if self.ended || self.stopped {
            return self.take(None, 0);
        }
        self.take(short_in(self.left), 0)
    }

    /// A value.
    #[tactic(auto, unfolding(crate::specs::Reading::read))]
    #[inline(always)]
    pub fn long(&mut self) -> u64
        ensures value { result ≡ value_or 0 (read number_at self.old) }
        ensures left { self.new ≡ step_of (read number_at self.old) self.old }
    {
        if self.ended || self.stopped {
            return self.take(None, 0);
        }
        self.take(number_in(self.left), 0)
    }

    /// A count of workers, or a lane.
    #[tactic(auto, unfolding(crate::specs::Reading::read))]
    #[inline(always)]
    pub fn few(&mut self) -> u32
        ensures value { result ≡ value_or 1 (read few_at self.old) }
        ensures left { self.new ≡ step_of (read few_at self.old) self.old }
    {
        if self.ended || self.stopped {
            return self.take(None, 1);
        }
        self.take(few_in(self.left), 1)
    }

    /// A name.
    #[tactic(auto, unfolding(crate::specs::Reading::read))]
    #[inline(always)]
    pub fn named(&mut self) -> Name
        ensures value { result ≡ value_or root_name (read name_at self.old) }
        ensures left { self.new ≡ step_of (read name_at self.old) self.old }
    {
        if self.ended || self.stopped {
            self.stop();
            return ROOT;
        }
        match name_in(self.left) {
            Some((name, rest)) => {
                self.go_to(rest);
                name
            }
            None => {
                self.stop();
                ROOT
            }
        }
    }

    /// The next word, and what follows it.
    #[inline(always)]
    pub fn next(&self) -> Option<(&'a [u8], Option<&'a [u8]>)>
        ensures word { option_map (λ p. p.0.now) result ≡ next_word self.now }
        ensures rest { IfSome result (λ p. option_map (λ r. r.now) p.1 ≡ (word_at self.now.left).1) }
    {
        if self.ended || self.stopped {
            return None;
        }
        match split_at_byte(self.left, b' ') {
            Some((word, rest)) => Some((word, Some(rest))),
            None => Some((self.left, None)),
        }
    }

    /// A reader behind a word.
    #[inline(always)]
    pub fn behind(rest: Option<&'a [u8]>) -> Reader<'a>
        ensures { result ≡ moved_to (option_map (λ r. r.now) rest.entry) }
    {
        match rest {
            Some(left) => Reader {
                left,
                ended: false,
                stopped: false,
            },
            None => Reader {
                left: &[],
                ended: true,
                stopped: false,
            },
        }
    }

    /// Whether the line ended with its last word, and else the place where the reader stands.
    #[inline(always)]
    pub fn end(&self, line: &[u8]) -> Result<(), BadLine>
        requires { length line.now ≤ LINE_LIMIT }
        ensures done { IfOk result (λ _. is_done self.now ≡ true) }
        ensures bad { IfErr result (λ e. is_done self.now ≡ false) }
        ensures column { IfErr result (λ e. e.column ≡ length line.now - length self.now.left + 1) }
    {
        if self.ended && !self.stopped {
            return Ok(());
        }
        let before = line.len().saturating_sub(self.left.len());
        Err(BadLine {
            column: before as u32 + 1,
        })
    }

    // The number that was read where the reader stands, which goes behind it; or else the least, and the
    // reader stops.
    #[inline(always)]
    fn take<T: Drop>(&mut self, found: Option<(T, Option<&'a [u8]>)>, least: T) -> T
        requires here { IfSome found (λ p. option_map (λ r. r.now) p.1 ≡ (word_at self.old.left).1) }
        ensures value { result ≡ value_or least (option_map (λ p. p.0) found.entry) }
        ensures left { self.new ≡ step_of (option_map (λ p. p.0) found.entry) self.old }
    {
        match found {
            Some((number, rest)) => {
                self.go_to(rest);
                number
            }
            None => {
                self.stop();
                least
            }
        }
    }

    // Goes behind a word.
    #[inline(always)]
    fn go_to(&mut self, rest: Option<&'a [u8]>)
        ensures { self.new ≡ moved_to (option_map (λ r. r.now) rest.entry) }
    {
        self.stopped = false;
        match rest {
            Some(bytes) => {
                self.left = bytes;
                self.ended = false;
            }
            None => {
                self.left = &[];
                self.ended = true;
            }
        }
    }

    /// Stays where it is from now on.
    pub fn stop(&mut self)
        ensures { self.new ≡ stop self.old }
    {
        self.stopped = true;
    }
}
