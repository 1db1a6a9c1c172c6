//! What lies behind the turn.
ghost use Rattle.std.specs.Prelude.{◌≡◌, ◌≤◌, ◌==◌, ◌↔◌, [], IfOk, IfErr, IfSome, IsErr, OnOk, OnErr};
ghost use Rattle.cut_core.specs.Calls.{TakesSteps};
ghost use Rattle.store_desk.specs.Appended.{Appended, IsOf, IsTaken, IsClosingOf, IsMarkingOf};
ghost use Rattle.store_desk.specs.Events.{HasClosing};
ghost use Rattle.store_desk.specs.States.{IsKeptIn};

use crate::event::Event;
use crate::happening;
use cut_builder::{ClosedCut, MarkedCut};
use cut_core::Core;
use disk_trait::Disk;
use object_graph::{Call, Memory, Refusal, Reply, Steps};
use std::alloc::Global;
use std::marker::Model;
use std::snapshot::Snapshot;
use std::sync::ledger::Ledger;
use turn_lock::Kept;

/// The core, and the chronicle of its calls since it was handed in. Contracts see the core as it was
/// handed in and as it stands, the chronicle, and for how many further entries there is room. The
/// core lies in a box, so that a move of the state copies a few words.
#[derive(Drop)]
pub struct DeskState<D: Disk> {
    core: Box<Core<D>>,
    chronicle: Vec<Event>,
    start: Snapshot<Core<D>>,
}

impl<D: Disk> Model for DeskState<D> {
    ghost use Rattle.std.specs.Prelude.{◌-◌, vec_capacity, vec_len};
    ghost use Rattle.store_desk.specs.States.{DeskParts, IsKept};

    ghost Value = { DeskParts D };

    ghost view = { λ s. record { start = s.start.value; core = s.core.value; chronicle = s.chronicle.items; spare = vec_capacity s.chronicle - vec_len s.chronicle } };

    ghost invariant = { λ s. IsKept D.Disk s.start.value s.core.value s.chronicle.items };
}

impl<D: Disk> Kept for DeskState<D> {
    type Item = Event;

    ghost list = { λ s. s.chronicle };

    type Start = Core<D>;

    ghost start = { λ s. s.start };

    fn entries(&self) -> u64 {
        self.chronicle.len() as u64
    }
}

impl<D: Disk> DeskState<D> {
    /// The state round a core, with an empty chronicle. For want of memory the core comes back.
    pub fn new(alloc: Global, core: Core<D>) -> Result<DeskState<D>, (Core<D>, Memory)>
        ensures ok { IfOk result (λ s. (s.start ≡ core) × (s.core ≡ core) × (s.chronicle ≡ [])) }
        ensures err { IfErr result (λ e. e.0 ≡ core) }
    {
        core.stands();
        let start = Snapshot::of(&core);
        match Box::new(alloc, core) {
            Ok(core) => Ok(DeskState {
                core,
                chronicle: Vec::new(alloc),
                start,
            }),
            Err(failed) => Err((failed.value, Memory)),
        }
    }

    /// Makes room for so many further entries.
    pub fn reserve<R>(&mut self, _rt: &R, count: u64) -> Result<(), Memory>
        ensures room { OnOk result (count ≤ self.new.spare) }
        ensures more { self.old.spare ≤ self.new.spare }
        ensures start { self.new.start ≡ self.old.start }
        ensures core { self.new.core ≡ self.old.core }
        ensures chronicle { self.new.chronicle ≡ self.old.chronicle }
        ensures err { OnErr result (self.new ≡ self.old) }
        ensures kept { IsKeptIn D.Disk self.new }
    {
        match self.chronicle.reserve(count as usize) {
            Ok(()) => Ok(()),
            Err(_) => Err(Memory),
        }
    }

    /// One call of a lane. It appends one event, and answers the reply and the event's place. For
    /// want of room nothing is changed.
    pub fn call<R, L: Ledger>(
        &mut self,
        _rt: &R,
        lane: u32,
        call: Call,
        steps: &mut Steps<L>,
    ) -> Result<(Reply, u64), Memory>
        requires { IsTaken call }
        ensures event { IfOk result (λ r. Appended self.old self.new (IsOf lane call r.0) r.1) }
        ensures kept { IsKeptIn D.Disk self.new }
        ensures no_room { IsErr result ↔ (self.old.spare ≡ 0) }
        ensures err { OnErr result (self.new ≡ self.old) }
        // The steps are those that the core tells.
        ensures taken { IfOk result (λ r. TakesSteps call r.0 steps.old steps.new) }
        ensures untaken { OnErr result (steps.new ≡ steps.old) }
    {
        if self.is_full() {
            return Err(Memory);
        }
        let place = self.chronicle.len() as u64;
        let event = happening::happen(&mut self.core, lane, call, steps);
        let reply = event.entry().reply;
        self.chronicle.push_reserved(event);
        Ok((reply, place))
    }

    /// Closes the cut, which leaves with the images and born slots that it has. The event keeps them
    /// for contracts.
    pub fn close_cut<R>(
        &mut self,
        _rt: &R,
        lane: u32,
    ) -> Result<(Result<ClosedCut, Refusal>, u64), Memory>
        ensures event { IfOk result (λ r. Appended self.old self.new (IsClosingOf lane r.0) r.1) }
        ensures kept { IsKeptIn D.Disk self.new }
        ensures no_room { IsErr result ↔ (self.old.spare ≡ 0) }
        ensures err { OnErr result (self.new ≡ self.old) }
    {
        if self.is_full() {
            return Err(Memory);
        }
        let place = self.chronicle.len() as u64;
        let (event, answer) = happening::close(&mut self.core, lane);
        self.chronicle.push_reserved(event);
        Ok((answer, place))
    }

    /// Gives the closed cut its marks, by which it is swept; or none, where marking found no memory.
    /// Marks that are refused are dropped, and for want of room they come back.
    pub fn give_marks<R>(
        &mut self,
        _rt: &R,
        lane: u32,
        workers: u32,
        marked: Option<MarkedCut>,
    ) -> Result<(Reply, u64), (Option<MarkedCut>, Memory)>
        requires closed { IfSome marked (λ m. HasClosing self.old.chronicle m.cut) }
        ensures event { IfOk result (λ r. Appended self.old self.new (IsMarkingOf lane workers marked r.0) r.1) }
        ensures kept { IsKeptIn D.Disk self.new }
        ensures no_room { IsErr result ↔ (self.old.spare ≡ 0) }
        ensures back { IfErr result (λ e. e.0 ≡ marked) }
        ensures err { OnErr result (self.new ≡ self.old) }
    {
        if self.is_full() {
            return Err((marked, Memory));
        }
        let place = self.chronicle.len() as u64;
        let event = happening::give_marks(&mut self.core, lane, workers, marked);
        let reply = event.entry().reply;
        self.chronicle.push_reserved(event);
        Ok((reply, place))
    }

    /// Whether there is no room for an entry.
    fn is_full(&self) -> bool
        ensures { result ≡ (self.now.spare == 0) }
    {
        self.chronicle.len() == self.chronicle.capacity()
    }

    /// How many pages the store has.
    pub fn pages(&self) -> u32
        ensures { result ≡ self.now.start.world.pages }
    {
        self.core.pages()
    }

    /// The core and the chronicle. The core stands for the world after the chronicle.
    pub fn into_parts(self) -> (Core<D>, Vec<Event>)
        ensures core { result.0 ≡ self.core }
        ensures chronicle { result.1.items ≡ self.chronicle }
        ensures kept { IsKeptIn D.Disk self }
    {
        let DeskState {
            core,
            chronicle,
            start: _,
        } = self;
        (Box::into_inner(core), chronicle)
    }
}
