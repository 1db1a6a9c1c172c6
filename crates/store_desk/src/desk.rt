//! The desk.
ghost use Rattle.std.specs.Prelude.{◌≡◌, ℕ, ◌-◌, ◌≤◌, [], length, Ok, IfOk, IfErr, IfSome};
ghost use Rattle.turn_lock.specs.Lists.{AreOfOne, places, times};
ghost use Rattle.turn_lock.specs.Seats.{all_parts, first_seat, joined_seats, less_one_part, split_off, TakesTurn};
ghost use Rattle.store_desk.specs.Appended.{Did, DidClose, DidMark, IsTaken};
ghost use Rattle.store_desk.specs.Events.{HasClosing};
ghost use Rattle.store_desk.specs.Seats.{Called, ClosedBy, MarkedBy, Looked};
ghost use Rattle.store_desk.specs.States.{IsKept};

use crate::event::Event;
use crate::state::DeskState;
use cut_builder::{ClosedCut, MarkedCut};
use cut_core::Core;
use disk_trait::Disk;
use object_graph::{Call, Memory, Refusal, Reply, Steps};
use std::alloc::Global;
use std::marker::Model;
use std::sync::Wait;
use std::sync::ledger::Ledger;
use turn_lock::{Seat, Turn, TurnGuard};

/// A seat at the desk. Contracts see the core with which the desk was made, a beginning of the
/// chronicle, which of its entries are the seat's own, and the seat's parts.
pub type DeskSeat<D> = Seat<DeskState<D>>;

/// A seat at the desk that keeps its turn. Contracts see what they see of the seat, which has seen
/// the whole chronicle.
pub type DeskGuard<D> = TurnGuard<DeskState<D>>;

/// One store for many threads. Contracts see which desk it is, and the state with which it was
/// made.
pub struct Desk<D: Disk> {
    turn: Turn<DeskState<D>>,
    pages: u32,
}

impl<D: Disk> Model for Desk<D> {
    ghost use Rattle.std.specs.Prelude.{◌≡◌};
    ghost use Rattle.turn_lock.specs.Seats.{Made};
    ghost use Rattle.store_desk.specs.States.{DeskParts};

    ghost Value = { Made (DeskParts D) };

    ghost view = { λ d. d.turn };

    ghost invariant = { λ d. d.pages ≡ d.turn.value.start.world.pages };
}

impl<D: Disk> Desk<D> {
    /// The desk round a core, with an empty chronicle, and the first seat, which has all parts. For
    /// want of memory the core comes back.
    pub fn new(alloc: Global, core: Core<D>) -> Result<(Desk<D>, DeskSeat<D>), (Core<D>, Memory)>
        ensures start { IfOk result (λ d. (d.0.value.start ≡ core) × (d.0.value.chronicle ≡ [])) }
        ensures seat { IfOk result (λ d. d.1 ≡ first_seat d.0.turn core []) }
        ensures err { IfErr result (λ e. e.0 ≡ core) }
    {
        let pages = core.pages();
        let state = DeskState::new(alloc, core)?;
        match Turn::new(alloc, state) {
            Ok((turn, seat)) => Ok((Desk { turn, pages }, seat)),
            Err((state, memory)) => {
                let (core, _chronicle) = state.into_parts();
                Err((core, memory))
            }
        }
    }

    /// Another seat, which has seen as much, owns no entry and gets one part. It takes no memory.
    pub fn split(&self, seat: &mut DeskSeat<D>) -> Result<DeskSeat<D>, Memory>
        requires own { seat.old.turn ≡ self.now.turn }
        requires parts { 2 ≤ seat.old.parts }
        ensures given { result ≡ Ok (split_off seat.old) }
        ensures kept { seat.new ≡ less_one_part seat.old }
    {
        self.turn.split(seat)
    }

    /// Takes in what the other seat has seen, its own entries and its parts. What the two have seen
    /// are beginnings of one chronicle.
    pub fn join(&self, seat: &mut DeskSeat<D>, other: DeskSeat<D>)
        requires own { seat.old.turn ≡ self.now.turn }
        requires other { other.turn ≡ self.now.turn }
        ensures joined { seat.new ≡ joined_seats seat.old other }
        ensures agree { AreOfOne seat.old.seen other.seen }
    {
        self.turn.join(seat, other);
    }

    /// Makes room for so many further entries of the chronicle.
    pub fn reserve<W: Wait>(&self, rt: &W, seat: &mut DeskSeat<D>, count: u64) -> Result<(), Memory>
        requires own { seat.old.turn ≡ self.now.turn }
        ensures { Looked D.Disk seat.old seat.new }
    {
        self.turn.with(rt, seat, |state| state.reserve(rt, count)).0
    }

    /// One call of a lane, in the seat's turn. It appends one entry to the chronicle, and answers
    /// the reply and the entry's place. Where the chronicle has no room nothing is done.
    pub fn call<W: Wait, L: Ledger>(
        &self,
        rt: &W,
        seat: &mut DeskSeat<D>,
        lane: u32,
        call: Call,
        steps: &mut Steps<L>,
    ) -> Result<(Reply, u64), Memory>
        requires own { seat.old.turn ≡ self.now.turn }
        requires taken { IsTaken call }
        ensures { Called D.Disk seat.old seat.new lane call result }
    {
        self.turn
            .with_beside(
                rt,
                seat,
                steps,
                |state, steps| -> Result<(Reply, u64), Memory>
                    requires { IsTaken call }
                    ensures { Did D.Disk state.old state.new lane call result }
                { state.call(rt, lane, call, steps) },
            )
            .0
    }

    /// Waits for the seat's turn, and keeps it until `leave`.
    pub fn enter<W: Wait>(&self, rt: &W, seat: DeskSeat<D>) -> DeskGuard<D>
        requires own { seat.turn ≡ self.now.turn }
        ensures { TakesTurn seat result }
    {
        self.turn.enter(rt, seat)
    }

    /// Ends a turn that was kept.
    pub fn leave(&self, guard: DeskGuard<D>) -> DeskSeat<D>
        requires own { guard.turn ≡ self.now.turn }
        ensures same { result ≡ guard }
    {
        self.turn.leave(guard)
    }

    /// Closes the cut, in the seat's turn. It leaves with the images and born slots that it has,
    /// which its entry keeps for contracts.
    pub fn close_cut<W: Wait>(
        &self,
        rt: &W,
        seat: &mut DeskSeat<D>,
        lane: u32,
    ) -> Result<(Result<ClosedCut, Refusal>, u64), Memory>
        requires own { seat.old.turn ≡ self.now.turn }
        ensures { ClosedBy D.Disk seat.old seat.new lane result }
    {
        self.turn
            .with(
                rt,
                seat,
                |state| -> Result<(Result<ClosedCut, Refusal>, u64), Memory>
                    ensures { DidClose D.Disk state.old state.new lane result }
                { state.close_cut(rt, lane) },
            )
            .0
    }

    /// Gives the closed cut its marks, in the seat's turn; or none, where marking found no memory.
    /// Marks that are refused are dropped, and for want of room they come back.
    pub fn give_marks<W: Wait>(
        &self,
        rt: &W,
        seat: &mut DeskSeat<D>,
        lane: u32,
        workers: u32,
        marked: Option<MarkedCut>,
    ) -> Result<(Reply, u64), (Option<MarkedCut>, Memory)>
        requires own { seat.old.turn ≡ self.now.turn }
        // The seat has seen the closing that gave this cut out.
        requires closed { IfSome marked (λ m. HasClosing seat.old.seen m.cut) }
        ensures marked { MarkedBy D.Disk seat.old seat.new lane workers marked result }
        ensures back { IfErr result (λ e. e.0 ≡ marked) }
    {
        self.turn
            .with(
                rt,
                seat,
                move |state| -> Result<(Reply, u64), (Option<MarkedCut>, Memory)>
                    requires { IfSome marked (λ m. HasClosing state.now.chronicle m.cut) }
                    ensures { DidMark D.Disk state.old state.new lane workers marked result }
                { state.give_marks(rt, lane, workers, marked) },
            )
            .0
    }

    /// How many pages the store has.
    pub fn pages(&self) -> u32
        ensures { result ≡ self.now.value.start.world.pages }
    {
        self.pages
    }

    /// Ends the desk. The seat that has all parts has seen the whole chronicle, and each of its
    /// places is the seat's own, once. The core stands for the world after it.
    pub fn close(self, seat: DeskSeat<D>) -> (Core<D>, Vec<Event>)
        requires own { seat.turn ≡ self.turn }
        requires parts { seat.parts ≡ all_parts }
        ensures chronicle { result.1.items ≡ seat.seen }
        ensures kept { IsKept D.Disk self.value.start result.0 seat.seen }
        ensures places { let first = length self.value.chronicle in (p : ℕ) → times p seat.own ≡ times p (places first (length seat.seen - first)) }
    {
        let Desk { turn, pages: _ } = self;
        turn.close(seat).into_parts()
    }
}

/// One call of a lane in a turn that its seat keeps. It does what `Desk::call` does, without waiting.
pub fn call_in_turn<D: Disk, L: Ledger>(
    guard: &mut DeskGuard<D>,
    lane: u32,
    call: Call,
    steps: &mut Steps<L>,
) -> Result<(Reply, u64), Memory>
    requires { IsTaken call }
    ensures { Called D.Disk guard.old guard.new lane call result }
{
    guard.with_beside(
        steps,
        |state, steps| -> Result<(Reply, u64), Memory>
            requires { IsTaken call }
            ensures { Did D.Disk state.old state.new lane call result }
        { state.call(&(), lane, call, steps) },
    )
}
