//! The core of a run, with the cut that it closed.
ghost use Rattle.std.specs.Prelude.{◌≡◌, ℕ, List, IfSome};
ghost use Rattle.object_graph.specs.declared.calls.Call.TheVariants.{Close, Mark, Reopen};
ghost use Rattle.store_model.specs.Lawful.{IsLawful};
ghost use Rattle.image_model.specs.Stands.{StandsForWorld};
ghost use Rattle.cut_core.specs.Calls.{IsBuilt};
ghost use Rattle.cut_core.specs.Starts.{IsJustOpened};
ghost use Rattle.mark_pool.specs.Jobs.{AreWorkers};
ghost use Rattle.store_machine.specs.Acts.{Answered};
ghost use Rattle.store_machine.specs.Calls.{IsOfScript, takes_cut};

use crate::marking::mark_closed;
use cut_builder::ClosedCut;
use cut_core::Core;
use disk_trait::Disk;
use object_graph::{Call, Reply, Steps};
use std::alloc::Global;
use std::marker::Model;
use std::sync::ledger::Ledger;
use std::thread::Threads;
use store_model::is_refused;

/// The core of a run, and beside it the cut that it closed, while that is closed. Contracts see the
/// core.
#[derive(Drop)]
pub struct Machine<D: Disk> {
    alloc: Global,
    core: Core<D>,
    closed: Option<ClosedCut>,
}

impl<D: Disk> Model for Machine<D> {
    ghost use Rattle.cut_core.specs.Seen.{Seen};
    ghost use Rattle.store_machine.specs.Kept.{KeepsClosed};

    ghost Value = { Seen D };

    ghost view = { λ m. m.core };

    ghost invariant = { λ m. KeepsClosed m.core m.closed };
}

impl<D: Disk> Machine<D> {
    /// A core that was just started.
    pub fn of(alloc: Global, core: Core<D>) -> Machine<D>
        requires { IsJustOpened core.world }
        ensures { result ≡ core }
    {
        Machine {
            alloc,
            core,
            closed: None,
        }
    }

    /// One call of a script, and its reply. Marking is done by threads; where it finds no memory, the
    /// closed cut is kept and can be marked again.
    #[inline(always)]
    pub fn answer<T: Threads + Sync, L: Ledger>(
        &mut self,
        threads: &T,
        call: Call,
        steps: &mut Steps<L>,
    ) -> Reply
        requires { IsOfScript call }
        ensures { Answered D.Disk self.old self.new call result }
    {
        match call {
            Call::Close => self.close(),
            Call::Mark { workers } => self.mark(threads, workers),
            Call::Reopen => self.reopen(),
            _ => self.call(call, steps),
        }
    }

    /// A call that the core answers by itself.
    #[inline(always)]
    fn call<L: Ledger>(&mut self, call: Call, steps: &mut Steps<L>) -> Reply
        requires { IsBuilt call }
        ensures { Answered D.Disk self.old self.new call result }
    {
        let reply = self.core.call(call, steps);
        if takes_cut(&call, &reply) {
            self.closed = None;
        }
        reply
    }

    /// Closes the cut, and keeps it.
    #[inline(never)]
    fn close(&mut self) -> Reply
        ensures { Answered D.Disk self.old self.new Close result }
    {
        let answer = self.core.close_cut();
        self.core.stands();
        match answer {
            Ok(cut) => {
                self.closed = Some(cut);
                Reply::Done
            }
            Err(why) => Reply::Refused { why },
        }
    }

    /// Marks the closed cut, which then isn't kept any more.
    #[inline(never)]
    fn mark<T: Threads + Sync>(&mut self, threads: &T, workers: u32) -> Reply
        requires { AreWorkers workers }
        ensures { Answered D.Disk self.old self.new (Mark workers) result }
    {
        self.core.stands();
        if let Err(why) = self.core.may_mark() {
            return Reply::Refused { why };
        }
        let Some(cut) = self.closed.take() else {
            unreachable!()
        };
        let (reply, kept) = mark_closed(&mut self.core, threads, self.alloc, cut, workers);
        self.closed = kept;
        reply
    }

    /// Opens the store again. No cut is left then.
    #[inline(never)]
    fn reopen(&mut self) -> Reply
        ensures { Answered D.Disk self.old self.new Reopen result }
    {
        let reply = self.core.reopen();
        if !is_refused(&reply) {
            self.closed = None;
        }
        reply
    }

    /// Its world is lawful, and is what a crash now leaves, where its disk tells that. It does nothing
    /// else.
    pub fn stands(&self)
        ensures lawful { IsLawful self.now.world }
        ensures now { IfSome (D.content self.now.disk) (λ file. (image : List ℕ) → D.may_leave self.now.disk image → StandsForWorld image self.now.world) }
    {
        self.core.stands();
    }

    /// How many pages the store has.
    pub fn pages(&self) -> u32
        ensures { result ≡ self.now.world.pages }
    {
        self.core.pages()
    }

    /// How many commits there were.
    pub fn commits(&self) -> u64
        ensures { result ≡ self.now.world.commits }
    {
        self.core.commits()
    }

    /// The disk's count of faults as the call ended that broke the store, if one did.
    pub fn broken(&self) -> Option<u64>
        ensures { result ≡ self.now.world.broken }
    {
        self.core.broken()
    }

    /// The page at this place of those whose frames the last call changed.
    #[cfg(test)]
    pub fn touched(&self, at: u32) -> Option<u32> {
        self.core.touched(at)
    }

    /// The disk.
    pub fn into_disk(self) -> D
        ensures { result ≡ self.disk }
    {
        let Machine {
            alloc: _,
            core,
            closed: _,
        } = self;
        core.into_disk()
    }
}

/// Whether the reply takes the cut away.
fn takes_cut(call: &Call, reply: &Reply) -> bool
    ensures { result ≡ takes_cut call.now reply.now }
{
    match *call {
        Call::EndCut | Call::DropCut | Call::Reopen => !is_refused(reply),
        _ => false,
    }
}
