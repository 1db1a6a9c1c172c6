//! Lines of scripts.
ghost use Rattle.std.specs.Prelude.{◌≡◌, ◌<◌, ◌≤◌, ℕ, IfOk, IfErr, Ok, Some, true, false, length};
ghost use Rattle.script_lang.specs.declared.line.Line.{Line as AnyLine};
ghost use Rattle.script_lang.specs.declared.line.LaneLine.{LaneLine as AnyLaneLine};
ghost use Rattle.script_lang.specs.Script.{BeginsNote, Says, SaysInLane, Asks, AsksInLane, InScripts, InLanes, IsFirstWrong, IsBadAt};

use crate::reader::Reader;
use crate::table::line_of;
use crate::words::few_in;
use object_graph::Call;

/// How many bytes a line may have (FORMATS.md, "Script lines").
pub const LINE_LIMIT: usize = 200;

/// What a line of a script says (FORMATS.md, "Script lines").
#[derive(Clone, Copy, Debug, PartialEq, Eq)]
pub enum Line {
    /// A call.
    One { call: Call },
    /// A whole cut, from its opening to its end, with so many workers for the marking.
    Collect { workers: u32 },
    /// An empty line, or one that begins with `#`.
    Note,
}

/// What a line for lanes says.
#[derive(Clone, Copy, Debug, PartialEq, Eq)]
pub struct LaneLine {
    /// From 1 to 16; 0 at a note.
    pub lane: u32,
    pub line: Line,
}

/// The line isn't in the grammar.
#[derive(Clone, Copy, Debug, PartialEq, Eq)]
pub struct BadLine {
    /// The first wrong place, counted from 1.
    pub column: u32,
}

/// What a line of a script says, without the byte that ends it.
#[inline(always)]
pub fn read_line(bytes: &[u8]) -> Result<Line, BadLine>
    ensures found { IfOk result (Says bytes.now) }
    ensures only { (line : AnyLine) → Says bytes.now line → result ≡ Ok line }
    ensures column { IfErr result (λ e. IsBadAt InScripts bytes.now e.column) }
{
    if is_too_long(bytes) {
        return Err(BadLine {
            column: LINE_LIMIT as u32 + 1,
        });
    }
    if is_note(bytes) {
        return Ok(Line::Note);
    }
    read_words(bytes)
}

// Whether a line has more bytes than it may have.
fn is_too_long(bytes: &[u8]) -> bool
    ensures long { result ≡ true → LINE_LIMIT < length bytes.now }
    ensures short { result ≡ false → length bytes.now ≤ LINE_LIMIT }
{
    bytes.len() > LINE_LIMIT
}

// Whether a line is a note.
fn is_note(bytes: &[u8]) -> bool
    ensures note { result ≡ true → BeginsNote bytes.now }
    ensures other { result ≡ false → BeginsNote bytes.now → ⊥ }
{
    match bytes {
        [] => true,
        [b, ..] => *b == b'#',
    }
}

// What a line that isn't a note says.
#[inline(always)]
fn read_words(bytes: &[u8]) -> Result<Line, BadLine>
    requires { length bytes.now ≤ LINE_LIMIT }
    ensures found { IfOk result (Asks bytes.now) }
    ensures only { (line : AnyLine) → Asks bytes.now line → result ≡ Ok line }
    ensures column { IfErr result (λ e. IsFirstWrong InScripts bytes.now e.column) }
{
    let (line, rest) = line_of(Reader::new(bytes), true);
    match rest.end(bytes) {
        Ok(()) => Ok(line),
        Err(bad) => Err(bad),
    }
}

/// What a line for lanes says, without the byte that ends it.
pub fn read_lane_line(bytes: &[u8]) -> Result<LaneLine, BadLine>
    ensures found { IfOk result (λ said. SaysInLane bytes.now said.lane said.line) }
    ensures only { (said : AnyLaneLine) → SaysInLane bytes.now said.lane said.line → result ≡ Ok said }
    ensures column { IfErr result (λ e. IsBadAt InLanes bytes.now e.column) }
{
    if is_too_long(bytes) {
        return Err(BadLine {
            column: LINE_LIMIT as u32 + 1,
        });
    }
    if is_note(bytes) {
        return Ok(LaneLine {
            lane: 0,
            line: Line::Note,
        });
    }
    read_lane_words(bytes)
}

/// The lane of which a line for lanes is. Of one that says nothing any lane may come, or none: its first
/// word alone is read.
#[inline(always)]
pub fn lane_of(bytes: &[u8]) -> Option<u32>
    ensures { (lane : ℕ) (line : AnyLine) → 0 < lane → SaysInLane bytes.now lane line → result ≡ Some lane }
{
    match few_in(bytes) {
        Some((lane, _)) => Some(lane),
        None => None,
    }
}

// What a line for lanes that isn't a note says.
fn read_lane_words(bytes: &[u8]) -> Result<LaneLine, BadLine>
    requires { length bytes.now ≤ LINE_LIMIT }
    ensures found { IfOk result (λ said. AsksInLane bytes.now said.lane said.line) }
    ensures only { (said : AnyLaneLine) → AsksInLane bytes.now said.lane said.line → result ≡ Ok said }
    ensures column { IfErr result (λ e. IsFirstWrong InLanes bytes.now e.column) }
{
    let mut words = Reader::new(bytes);
    let lane = words.few();
    let (line, rest) = line_of(words, false);
    match rest.end(bytes) {
        Ok(()) => Ok(LaneLine { lane, line }),
        Err(bad) => Err(bad),
    }
}
