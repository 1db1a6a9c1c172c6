//! One lane of a script, and all of them beside each other.
ghost use Rattle.std.specs.Prelude.{◌≡◌, ◌≢◌, ◌<◌, ◌≤◌, ◌&&◌, [], ◌∷◌, false};
ghost use Rattle.script_lang.specs.Script.{lines_of, SaysInLane};
ghost use Rattle.script_lang.specs.declared.line.LaneLine.{LaneLine as AnyLaneLine};
ghost use Rattle.store_lanes.specs.LaneScripts.{EndAtLane};
ghost use Rattle.store_lanes.specs.Lanes.{IsFor, IsRun, LanesRan, LineServed};
ghost use Rattle.store_lanes.specs.Owned.{SameSeat};
ghost use Rattle.store_lanes.specs.Posts.{seat_of};
ghost use Rattle.store_lanes.specs.Served.{without_bool};

use crate::collect::collect;
use crate::post::Post;
use crate::step::step;
use disk_trait::{Disk, Gate};
use object_graph::Memory;
use script_lang::{LaneLine, Line, lane_of, next_line, read_lane_line};
use std::alloc::Global;
use std::sync::Wait;
use std::thread::{Threads, join};
use store_desk::{Desk, DeskSeat};

/// How many lanes there are.
pub const LANES: u32 = 16;

/// The calls of a line of a lane.
fn serve<R: Threads + Wait + Sync, D: Disk>(
    rt: &R,
    alloc: Global,
    desk: &Desk<D>,
    post: Post<D>,
    lane: u32,
    line: Line,
) -> (Post<D>, Result<(), Memory>)
    requires own { (seat_of post).turn ≡ desk.now.turn }
    requires start { (seat_of post).start ≡ desk.now.value.start ∷ [] }
    requires run { IsRun line }
    ensures served { LineServed D.Disk desk.now.value.start lane line (seat_of post) (seat_of result.0) result.1 }
    ensures same { SameSeat (seat_of post) (seat_of result.0) }
{
    let ran = match line {
        Line::One { call } => step(rt, desk, post, lane, call),
        Line::Collect { workers } => collect(rt, alloc, desk, post, lane, workers),
        Line::Note => unreachable!(),
    };
    without_value(ran)
}

/// Whether all was done is nothing to the line.
fn without_value<D: Disk>(ran: (Post<D>, Result<bool, Memory>)) -> (Post<D>, Result<(), Memory>)
    ensures post { result.0 ≡ ran.0 }
    ensures result { result.1 ≡ without_bool ran.1 }
{
    let (post, done) = ran;
    (post, done.map(|_| ()))
}

/// Whether a line can be one of the lane, by its first word.
#[inline(always)]
fn can_be_of(bytes: &[u8], lane: u32) -> bool
    requires { 0 < lane }
    ensures { result ≡ false → (said : AnyLaneLine) → SaysInLane bytes.now said.lane said.line → said.lane ≢ lane }
{
    match lane_of(bytes) {
        Some(of) => of == lane,
        None => false,
    }
}

/// What a line asks for, where it is one of the lane.
#[inline(always)]
fn line_for(bytes: &[u8], lane: u32) -> Option<Line>
    requires { 0 < lane }
    ensures { IsFor lane bytes.now result }
{
    if !can_be_of(bytes, lane) {
        return None;
    }
    let Ok(LaneLine { lane: of, line }) = read_lane_line(bytes) else {
        return None;
    };
    if of != lane {
        return None;
    }
    Some(line)
}

/// Runs the lines of one lane in turn, up to the first that finds no memory. Answers whether it came
/// to the end.
fn run_lane<R: Threads + Wait + Sync, D: Disk, G: Gate>(
    rt: &R,
    alloc: Global,
    desk: &Desk<D>,
    seat: DeskSeat<D>,
    gate: &G,
    script: &[u8],
    lane: u32,
) -> (DeskSeat<D>, bool)
    requires lane { 0 < lane }
    requires own { seat.turn ≡ desk.now.turn }
    requires start { seat.start ≡ desk.now.value.start ∷ [] }
    requires fresh { seat.own ≡ [] }
    ensures ran { LanesRan D.Disk desk.now.value.start (lines_of script.now) lane lane result.1 result.0 }
    ensures same { SameSeat seat result.0 }
{
    let mut post = Post::Seated { seat };
    let mut rest = script;
    let mut turn: u64 = 1;
    'lines: while let Some((bytes, after)) = next_line(rest) {
        if let Some(line) = line_for(bytes, lane) {
            gate.pass(lane, turn);
            let (next, served) = serve(rt, alloc, desk, post, lane, line);
            post = next;
            if served.is_err() {
                return (post.seated(desk), false);
            }
            turn = turn.saturating_add(1);
        }
        rest = after;
    }
    (post.seated(desk), true)
}

/// The greater of a lane and the lane of a line, where there is such a lane.
fn later_lane(last: u32, bytes: &[u8]) -> u32
    requires { last ≤ LANES }
    ensures within { result ≤ LANES }
    ensures grows { last ≤ result }
    ensures reaches { (said : AnyLaneLine) → SaysInLane bytes.now said.lane said.line → said.lane ≤ result }
{
    match lane_of(bytes) {
        Some(lane) if lane <= LANES => last.max(lane),
        _ => last,
    }
}

/// The last lane that a line of a script is of, or 0 where there is none.
fn last_lane(script: &[u8]) -> u32
    ensures within { result ≤ LANES }
    ensures last { EndAtLane result (lines_of script.now) }
{
    let mut last = 0;
    let mut rest = script;
    'lines: while let Some((bytes, after)) = next_line(rest) {
        last = later_lane(last, bytes);
        rest = after;
    }
    last
}

/// Runs the lanes from the first to the last of these beside each other, each in a thread of its own.
/// The seat is cut in parts for them.
fn run_lanes_to<R: Threads + Wait + Sync, D: Disk + Send, G: Gate>(
    rt: &R,
    alloc: Global,
    desk: &Desk<D>,
    mut seat: DeskSeat<D>,
    gate: &G,
    script: &[u8],
    last: u32,
) -> (DeskSeat<D>, bool)
    requires own { seat.turn ≡ desk.now.turn }
    requires start { seat.start ≡ desk.now.value.start ∷ [] }
    requires fresh { seat.own ≡ [] }
    requires parts { last < seat.parts }
    ensures ran { LanesRan D.Disk desk.now.value.start (lines_of script.now) 1 last result.1 result.0 }
    ensures same { SameSeat seat result.0 }
{
    if last == 0 {
        return (seat, true);
    }
    let Ok(other) = desk.split(&mut seat) else {
        unreachable!()
    };
    let fewer = last - 1;
    let ((mut seat, earlier), (other, own)) = join(
        rt,
        move || -> (DeskSeat<D>, bool)
            requires { (seat.turn ≡ desk.now.turn) × (seat.start ≡ desk.now.value.start ∷ []) × (seat.own ≡ []) × (fewer < seat.parts) }
            ensures { LanesRan D.Disk desk.entry.now.value.start (lines_of script.entry.now) 1 fewer result.1 result.0 × SameSeat seat result.0 }
        { run_lanes_to(rt, alloc, desk, seat, gate, script, fewer) },
        move || -> (DeskSeat<D>, bool)
            requires { (0 < last) × (other.turn ≡ desk.now.turn) × (other.start ≡ desk.now.value.start ∷ []) × (other.own ≡ []) }
            ensures { LanesRan D.Disk desk.entry.now.value.start (lines_of script.entry.now) last last result.1 result.0 × SameSeat other result.0 }
        { run_lane(rt, alloc, desk, other, gate, script, last) },
    );
    desk.join(&mut seat, other);
    (seat, both(earlier, own))
}

fn both(first: bool, second: bool) -> bool
    ensures { result ≡ (first && second) }
{
    first && second
}

/// Runs the lanes of a script beside each other, each in a thread of its own, up to the last that has a
/// line (FORMATS.md, "Script lines"). A lane runs its lines in order, and passes the gate before each,
/// with its number and the line's among its own, from 1 on; before the first line of a turn it does so
/// without the turn, and before the others in the turn, for which the other lanes wait. Where there is
/// no room for a call it stops. The seat is cut in parts for them, so it has more parts than there are
/// lanes. Answers whether all came to their ends.
pub fn run_lanes<R: Threads + Wait + Sync, D: Disk + Send, G: Gate>(
    rt: &R,
    alloc: Global,
    desk: &Desk<D>,
    seat: DeskSeat<D>,
    gate: &G,
    script: &[u8],
) -> (DeskSeat<D>, bool)
    requires own { seat.turn ≡ desk.now.turn }
    requires start { seat.start ≡ desk.now.value.start ∷ [] }
    requires fresh { seat.own ≡ [] }
    requires parts { LANES < seat.parts }
    ensures ran { LanesRan D.Disk desk.now.value.start (lines_of script.now) 1 LANES result.1 result.0 }
    ensures same { SameSeat seat result.0 }
{
    run_lanes_to(rt, alloc, desk, seat, gate, script, last_lane(script))
}
