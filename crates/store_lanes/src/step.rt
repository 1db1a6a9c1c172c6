//! One call of a lane at the desk.
ghost use Rattle.std.specs.Prelude.{◌≡◌, ◌<◌, ◌∷◌, [], true};
ghost use Rattle.store_desk.specs.Appended.{IsTaken};
ghost use Rattle.store_lanes.specs.Lanes.{PartRan};
ghost use Rattle.store_lanes.specs.Owned.{SameSeat};
ghost use Rattle.store_lanes.specs.Posts.{seat_of};
ghost use Rattle.store_lanes.specs.Served.{is_plain};

use crate::post::{Post, weight};
use disk_trait::Disk;
use object_graph::{Call, Memory, Steps};
use std::marker::Brand;
use std::sync::Wait;
use std::sync::ledger::{Blank, Ledger};
use store_desk::{Desk, DeskGuard, call_in_turn};
use store_model::is_refused;

/// One call of a lane, whose steps nobody counts, in its turn, which it takes where it keeps none, and may
/// keep. Answers whether the call was done, not refused.
pub fn step<W: Wait, D: Disk>(
    rt: &W,
    desk: &Desk<D>,
    post: Post<D>,
    lane: u32,
    call: Call,
) -> (Post<D>, Result<bool, Memory>)
    requires own { (seat_of post).turn ≡ desk.now.turn }
    requires taken { IsTaken call }
    requires plain { is_plain call ≡ true }
    ensures ran { PartRan D.Disk desk.now.value.start lane (call ∷ []) (seat_of post) (seat_of result.0) result.1 }
    ensures same { SameSeat (seat_of post) (seat_of result.0) }
{
    let (mut guard, left) = post.in_turn(rt, desk);
    let left = left.saturating_sub(weight(&call));
    let done = step_in_turn(desk, &mut guard, lane, call);
    (Post::after_call(desk, guard, left), done)
}

/// The same in a turn that the lane has.
fn step_in_turn<D: Disk>(
    desk: &Desk<D>,
    guard: &mut DeskGuard<D>,
    lane: u32,
    call: Call,
) -> Result<bool, Memory>
    requires taken { IsTaken call }
    requires plain { is_plain call ≡ true }
    ensures ran { PartRan D.Disk desk.now.value.start lane (call ∷ []) guard.old guard.new result }
    ensures same { SameSeat guard.old guard.new }
{
    step_in_turn_over::<D, Brand>(desk, guard, lane, call, Blank::new(1))
}

fn step_in_turn_over<D: Disk, L: Ledger>(
    desk: &Desk<D>,
    guard: &mut DeskGuard<D>,
    lane: u32,
    call: Call,
    blank: Blank,
) -> Result<bool, Memory>
    requires name { blank.name ≡ L.name }
    requires parts { blank.parts ≡ L.parts }
    requires some { 0 < blank.parts }
    requires taken { IsTaken call }
    requires plain { is_plain call ≡ true }
    ensures ran { PartRan D.Disk desk.now.value.start lane (call ∷ []) guard.old guard.new result }
    ensures same { SameSeat guard.old guard.new }
{
    let mut steps: Steps<L> = Steps::new(blank);
    match call_in_turn(guard, lane, call, &mut steps) {
        Ok((reply, _)) => Ok(!is_refused(&reply)),
        Err(memory) => Err(memory),
    }
}
