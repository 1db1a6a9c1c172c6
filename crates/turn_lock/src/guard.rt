//! A seat in its turn.
ghost use Rattle.std.specs.Prelude.{◌≡◌, length};
ghost use Rattle.std.specs.Fn.{FnOnceTakesAtMut, FnOnceReturnsAtMut};
ghost use Rattle.turn_lock.specs.Calls.{TakesBeside, ReturnsBeside};
ghost use Rattle.turn_lock.specs.Seats.{Appends, HasAtHand, grown};

use crate::calls::{called, called_beside};
use crate::kept::Kept;
use crate::rule::Place;
use std::marker::Model;

/// A seat whose turn is served, with the value: it keeps its turn over several calls. For contracts
/// it is the seat, which has seen the whole list. It can't be dropped, since the others wait until
/// its turn is left.
pub struct TurnGuard<T: Kept> {
    pub(crate) place: Place<T>,
    pub(crate) value: T,
    // How many entries there were as the turn began.
    pub(crate) before: u64,
}

impl<T: Kept> Model for TurnGuard<T> {
    ghost use Rattle.turn_lock.specs.Seats.{Known, in_turn};
    ghost use Rattle.turn_lock.specs.Turns.{HasValue};

    ghost Value = { Known T.Item T.Start };

    ghost view = { λ g. in_turn g.place.table_id g.place.me.0 (T.list g.value) };

    ghost invariant = { λ g. HasValue g.place.me (T.list g.value) (T.start g.value) g.before };
}

impl<T: Kept> TurnGuard<T> {
    /// Calls with the value, and answers what the call answered. It doesn't wait.
    pub fn with<R, F: FnOnce(&mut T) -> R>(&mut self, call: F) -> R
        requires may { (x : T) → HasAtHand (T.list x) (T.start x) self.old → FnOnceTakesAtMut F.FnOnce call x }
        requires appends { (x y : T) (r : R) → HasAtHand (T.list x) (T.start x) self.old → FnOnceReturnsAtMut F.FnOnce call x r y → Appends (T.list x) (T.start x) (T.list y) (T.start y) }
        ensures called { (x : T) × (y : T) × HasAtHand (T.list x) (T.start x) self.old × FnOnceReturnsAtMut F.FnOnce call x result y × (self.new ≡ grown self.old (T.list x) (T.list y)) }
    {
        called(&mut self.value, call)
    }

    /// The same with something of the caller's lent to the call.
    pub fn with_beside<C, R, F: FnOnce(&mut T, &mut C) -> R>(
        &mut self,
        beside: &mut C,
        call: F,
    ) -> R
        requires may { (x : T) → HasAtHand (T.list x) (T.start x) self.old → TakesBeside F.FnOnce call x beside.old }
        requires appends { (x y : T) (r : R) (z : C) → HasAtHand (T.list x) (T.start x) self.old → ReturnsBeside F.FnOnce call x beside.old r y z → Appends (T.list x) (T.start x) (T.list y) (T.start y) }
        ensures called { (x : T) × (y : T) × HasAtHand (T.list x) (T.start x) self.old × ReturnsBeside F.FnOnce call x beside.old result y beside.new × (self.new ≡ grown self.old (T.list x) (T.list y)) }
    {
        called_beside(&mut self.value, beside, call)
    }
}
