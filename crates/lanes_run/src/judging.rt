//! Judging the lines of a script of lanes.
ghost use Rattle.std.specs.Prelude.{◌≡◌, ◌+◌, ◌*◌, ◌≤◌, length, vec_len, vec_capacity};
ghost use Rattle.script_lang.specs.Words.{Without};
ghost use Rattle.store_run.specs.declared.pieces.TheConstants.{SCRIPT_LIMIT as script_limit};
ghost use Rattle.lanes_run.specs.Asked.{line_entries as asked};
ghost use Rattle.lanes_run.specs.Judging.{LineJudged, FrontJudged, PieceJudged, LastJudged, EndJudged};

use script_lang::{LINE_LIMIT, LaneLine, Line, next_line, read_lane_line};
use store_run::{Status, Unread};

/// For how many entries a script may ask (FORMATS.md, "Commands").
pub const MOST_ENTRIES: u64 = 4_194_304;

/// The lines that were judged, and for how many entries they ask.
#[derive(Clone, Copy, Debug, PartialEq, Eq)]
pub struct Tally {
    pub lines: u64,
    pub entries: u64,
}

/// For how many entries a line asks.
fn entries_of(pages: u32, line: &Line) -> u64
    ensures { result ≡ asked pages line.now }
{
    match line {
        Line::Note => 0,
        Line::One { .. } => 1,
        Line::Collect { .. } => 2 * pages as u64 + 4,
    }
}

/// Judges a line, and counts it.
fn judge_line(line: &[u8], pages: u32, before: Tally) -> Result<Tally, Status>
    requires lines { before.lines ≤ script_limit }
    requires entries { before.entries ≤ before.lines * 8589934594 }
    ensures { LineJudged pages line.now before result }
{
    let number = before.lines + 1;
    match read_lane_line(line) {
        Err(bad) => Err(Status::BadLine {
            line: number,
            column: bad.column,
        }),
        Ok(said) => Ok(Tally {
            lines: number,
            entries: before.entries + entries_of(pages, &said.line),
        }),
    }
}

/// Judges the whole lines of some bytes in turn, up to the first bad one. Answers how many bytes
/// stand behind the last.
fn judge_lines(bytes: &[u8], pages: u32, before: Tally) -> Result<(Tally, usize), Status>
    requires lines { before.lines + length bytes.now ≤ script_limit }
    requires entries { before.entries ≤ before.lines * 8589934594 }
    ensures { FrontJudged pages bytes.now before result }
{
    let mut rest = bytes;
    let mut tally = before;
    'lines: while let Some((line, after)) = next_line(rest) {
        if line.len() == rest.len() {
            return Ok((tally, rest.len()));
        }
        match judge_line(line, pages, tally) {
            Ok(now) => tally = now,
            Err(status) => return Err(status),
        }
        rest = after;
    }
    Ok((tally, rest.len()))
}

/// Judges the whole lines of what is unread, and keeps what stands behind them, which must not be too
/// long for a line already.
pub fn judge_piece(unread: &mut Unread, pages: u32, before: Tally) -> Result<Tally, Status>
    requires lines { before.lines + vec_len unread.old.ahead ≤ script_limit }
    requires entries { before.entries ≤ before.lines * 8589934594 }
    ensures judged { PieceJudged pages unread.old.ahead.items before unread.new.ahead.items result }
    ensures taken { unread.new.taken ≡ unread.old.taken }
    ensures room { vec_capacity unread.new.ahead ≡ vec_capacity unread.old.ahead }
{
    match judge_lines(&unread.ahead, pages, before) {
        Err(status) => Err(status),
        Ok((now, left)) => {
            unread.keep_last(left);
            if left > LINE_LIMIT {
                return Err(Status::BadLine {
                    line: now.lines + 1,
                    column: LINE_LIMIT as u32 + 1,
                });
            }
            Ok(now)
        }
    }
}

/// Judges a last line that lacks its end, if there is one.
fn judge_last(line: &[u8], pages: u32, before: Tally) -> Result<Tally, Status>
    requires lines { before.lines ≤ script_limit }
    requires entries { before.entries ≤ before.lines * 8589934594 }
    requires unended { Without 10 line.now }
    ensures { LastJudged pages line.now before result }
{
    if line.is_empty() {
        return Ok(before);
    }
    judge_line(line, pages, before)
}

/// Ends the judging with a last line that lacks its end, if there is one. Answers for how many entries
/// the script asks, which must not be too many.
pub fn judge_end(line: &[u8], pages: u32, before: Tally) -> Result<u64, Status>
    requires lines { before.lines ≤ script_limit }
    requires entries { before.entries ≤ before.lines * 8589934594 }
    requires unended { Without 10 line.now }
    ensures { EndJudged pages line.now before result }
{
    match judge_last(line, pages, before) {
        Err(status) => Err(status),
        Ok(now) => {
            if now.entries > MOST_ENTRIES {
                return Err(Status::TooLong);
            }
            Ok(now.entries)
        }
    }
}
