//! Where a lane stands at the desk.
ghost use Rattle.std.specs.Prelude.{◌≡◌};
ghost use Rattle.turn_lock.specs.Seats.{TakesTurn};
ghost use Rattle.store_lanes.specs.Posts.{seat_of};

use disk_trait::Disk;
use object_graph::Call;
use std::sync::Wait;
use store_desk::{Desk, DeskGuard, DeskSeat};

/// How many calls a lane makes in one turn, at most, where none waits for the disk. Then it passes the
/// turn on.
pub const MOST_IN_TURN: u32 = 4_096;

/// A call that may wait for the disk counts as so many.
pub const DISK_CALL: u32 = 64;

/// How many calls a call counts as in a turn.
pub fn weight(call: &Call) -> u32 {
    match call {
        Call::Commit { .. } | Call::Sweep { .. } => DISK_CALL,
        _ => 1,
    }
}

/// A lane at the desk.
pub enum Post<D: Disk> {
    /// It has no turn.
    Seated { seat: DeskSeat<D> },
    /// It keeps its turn, in which so many calls are left to it.
    InTurn { guard: DeskGuard<D>, left: u32 },
}

impl<D: Disk> Post<D> {
    /// The lane in its turn, which it takes where it keeps none, and how many calls are left to it.
    pub fn in_turn<W: Wait>(self, rt: &W, desk: &Desk<D>) -> (DeskGuard<D>, u32)
        requires own { (seat_of self).turn ≡ desk.now.turn }
        ensures { TakesTurn (seat_of self) result.0 }
    {
        match self {
            Post::Seated { seat } => (desk.enter(rt, seat), MOST_IN_TURN),
            Post::InTurn { guard, left } => (guard, left),
        }
    }

    /// The lane after a call in its turn, in which so many are left to it: it leaves the turn where none is.
    pub fn after_call(desk: &Desk<D>, guard: DeskGuard<D>, left: u32) -> Post<D>
        requires own { guard.turn ≡ desk.now.turn }
        ensures { seat_of result ≡ guard }
    {
        if left > 0 {
            Post::InTurn { guard, left }
        } else {
            Post::Seated {
                seat: desk.leave(guard),
            }
        }
    }

    /// The lane's seat. It leaves the turn that it keeps.
    pub fn seated(self, desk: &Desk<D>) -> DeskSeat<D>
        requires own { (seat_of self).turn ≡ desk.now.turn }
        ensures { result ≡ seat_of self }
    {
        match self {
            Post::Seated { seat } => seat,
            Post::InTurn { guard, left: _ } => desk.leave(guard),
        }
    }
}
