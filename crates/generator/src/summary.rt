//! What a run counts, and the line that it ends with.
ghost use Rattle.std.specs.Prelude.{◌≡◌, ◌≤◌, ◌+◌, ◌++◌, length, vec_len, vec_capacity, decimal, codes};
ghost use Rattle.generator.specs.Summaries.{summary_text};

use itoa::Buffer;

/// Room for the line of a run.
pub const SUMMARY_ROOM: usize = 256;

/// What a run counts.
#[derive(Clone, Copy, Debug, PartialEq, Eq)]
pub struct Tally {
    /// The rounds that were run.
    pub rounds: u64,
    /// The number of commits.
    pub commits: u64,
    /// The replies that a page is full.
    pub full: u64,
    /// The slots that were freed.
    pub freed: u64,
    /// The cuts that were ended.
    pub ended: u64,
}

impl Tally {
    /// A run that has counted nothing.
    pub fn none() -> Tally
        ensures rounds { result.rounds ≡ 0 }
        ensures commits { result.commits ≡ 0 }
        ensures full { result.full ≡ 0 }
        ensures freed { result.freed ≡ 0 }
        ensures ended { result.ended ≡ 0 }
    {
        Tally {
            rounds: 0,
            commits: 0,
            full: 0,
            freed: 0,
            ended: 0,
        }
    }

    /// Prints the line at the end of a text, with its line end (FORMATS.md, "The generator").
    pub fn print(&self, out: &mut Vec<u8>)
        requires { vec_len out.old + SUMMARY_ROOM ≤ vec_capacity out.old }
        ensures { out.new.items ≡ out.old.items ++ summary_text self.now.rounds self.now.commits self.now.full self.now.freed self.now.ended }
    {
        add_number(out, b"rounds ", self.rounds);
        add_number(out, b" commits ", self.commits);
        add_number(out, b" full ", self.full);
        add_number(out, b" freed ", self.freed);
        add_number(out, b" cuts ", self.ended);
        add(out, b"\n");
    }
}

// Adds these bytes.
fn add(out: &mut Vec<u8>, text: &[u8])
    requires { vec_len out.old + length text.now ≤ vec_capacity out.old }
    ensures text { out.new.items ≡ out.old.items ++ text.now }
    ensures len { vec_len out.new ≡ vec_len out.old + length text.now }
    ensures room { vec_capacity out.old ≤ vec_capacity out.new }
{
    out.extend_from_slice(text).unwrap();
}

// Adds a label and a number.
fn add_number(out: &mut Vec<u8>, label: &[u8], number: u64)
    requires { vec_len out.old + length label.now + 20 ≤ vec_capacity out.old }
    ensures text { out.new.items ≡ out.old.items ++ (label.now ++ decimal number) }
    ensures short { vec_len out.new ≤ vec_len out.old + length label.now + 20 }
    ensures room { vec_capacity out.old ≤ vec_capacity out.new }
{
    add(out, label);
    let mut buffer = Buffer::new();
    add(out, buffer.format(number).as_bytes());
}
