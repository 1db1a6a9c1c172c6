//! The cut that the core holds, in each phase.
ghost use Rattle.object_graph.specs.declared.calls.Refusal.{Refusal as AnyRefusal};
ghost use Rattle.object_graph.specs.declared.calls.Refusal.TheVariants.{DiskFault};
ghost use Rattle.std.specs.Prelude.{◌≡◌, ◌≢◌, Err, ◌<◌, ◌≤◌, ◌+◌, ℕ, true, false, Some, None, IfOk, OnOk, IfSome, IfNone, length, replicate, slice_index_or, is_some};
ghost use Rattle.object_graph.specs.declared.calls.Call.TheVariants.{OpenCut, Copy, EndCut, DropCut};
ghost use Rattle.store_model.specs.Worlds.{World};
ghost use Rattle.transactions.specs.Standing.{IsReady};
ghost use Rattle.object_graph.specs.Replies.{done_reply};
ghost use Rattle.object_graph.specs.declared.calls.Phase.TheVariants as Phase;
ghost use Rattle.store_model.specs.Causes.{is_phase};
ghost use Rattle.store_model.specs.Steps.{committed};
ghost use Rattle.transactions.specs.Tables.{entry_of};
ghost use Rattle.cut_model.specs.CutPages.{bare_page};
ghost use Rattle.cut_core.specs.Holding.{Holds, CutSteps, AddsFrame, phase_of, beside_stage, beside_of};
ghost use Rattle.cut_core.specs.Given.{KeepsGiven};
ghost use Rattle.cut_core.specs.declared.held.Stage.TheVariants.{Copying};

use crate::copying::{copy_page, give_images};
use cut_builder::{ClosedCut, Cut, MarkedCut};
use object_graph::{MOST_COUNTED, MOST_PAGES, Memory, Phase, Refusal, Reply, Steps};
use std::alloc::Global;
use std::snapshot::Snapshot;
use std::sync::ledger::Ledger;
use transactions::Transactions;

/// What is kept of a cut in each phase. A closed one has left the core, and contracts alone see it.
#[derive(Drop)]
pub enum Stage {
    Copying { cut: Cut },
    Closed { given: Snapshot<ClosedCut> },
    Sweeping { marked: MarkedCut },
}

/// A cut, with the pages that are swept.
#[derive(Drop)]
pub struct HeldCut {
    pub number: u64,
    pub stage: Stage,
    pub swept: Vec<bool>,
}

/// The cut, where one is there, and the number of the last one.
#[derive(Drop)]
pub struct Held {
    pub cut: Option<HeldCut>,
    pub last_cut: u64,
}

fn refused(why: Refusal) -> Reply
    ensures { result ≡ Reply.Refused why }
{
    Reply::Refused { why }
}

impl Stage {
    /// The phase of the cut.
    pub fn phase(&self) -> Phase
        ensures { result ≡ phase_of self.now }
    {
        match self {
            Stage::Copying { cut: _ } => Phase::Copying,
            Stage::Closed { given: _ } => Phase::Closed,
            Stage::Sweeping { marked: _ } => Phase::Sweeping,
        }
    }
}

/// A cut with nothing copied and nothing swept.
fn new_cut(alloc: Global, pages: u32, number: u64, commits: u64) -> Result<HeldCut, Memory>
    requires some { 0 < pages }
    requires few { pages ≤ MOST_PAGES }
    ensures number { IfOk result (λ held. held.number ≡ number) }
    ensures stage { IfOk result (λ held. held.stage ≡ Copying (record { number = number; start = commits; pages = replicate pages bare_page })) }
    ensures swept { IfOk result (λ held. held.swept.items ≡ replicate pages false) }
{
    let Ok(swept) = vec![in alloc; false; pages as usize] else {
        return Err(Memory);
    };
    match Cut::start(alloc, pages, number, commits) {
        Ok(cut) => Ok(HeldCut {
            number,
            stage: Stage::Copying { cut },
            swept,
        }),
        Err(lack) => Err(lack),
    }
}

/// Copies a page into a cut, as its frame stands.
fn copy_in<L: Ledger>(
    held: &mut HeldCut,
    transactions: &Transactions,
    commits: u64,
    page: u32,
    steps: &mut Steps<L>,
) -> Result<(), Refusal>
    requires { (w : World) × (last : ℕ) × Holds (record { cut = Some held.old; last_cut = last }) w × IsReady transactions.now w × (w.commits ≡ commits) }
    ensures well { (w : World) (last : ℕ) → Holds (record { cut = Some held.old; last_cut = last }) w → IsReady transactions.now w → w.commits ≡ commits
        → CutSteps (record { cut = Some held.new; last_cut = last }) w (Copy page) (done_reply result) }
    ensures copied { (w : World) (last : ℕ) → Holds (record { cut = Some held.old; last_cut = last }) w → IsReady transactions.now w → w.commits ≡ commits
        → OnOk result (AddsFrame w page (beside_stage held.old.stage) (beside_stage held.new.stage)) }
    ensures given { (last : ℕ) → KeepsGiven (record { cut = Some held.old; last_cut = last }) (record { cut = Some held.new; last_cut = last }) }
    ensures other { (why : AnyRefusal) → result ≡ Err why → why ≢ DiskFault }
    ensures step { steps.new ≤ steps.old + 1 }
{
    let now = held.stage.phase();
    let number = held.number;
    if let Stage::Copying { cut } = &mut held.stage {
        return copy_page(cut, transactions, number, commits, page, steps);
    }
    Err(Refusal::WrongPhase { now })
}

/// The least page that isn't swept.
fn first_unswept(swept: &[bool]) -> Option<u32>
    requires { length swept.now ≤ MOST_PAGES }
    ensures some { IfSome result (λ page. (page < length swept.now) × (slice_index_or swept.now page false ≡ false)) }
    ensures least { IfSome result (λ page. (p : ℕ) → p < page → slice_index_or swept.now p false ≡ true) }
    ensures none { IfNone result ((p : ℕ) → p < length swept.now → slice_index_or swept.now p false ≡ true) }
{
    for at in 0..swept.len() {
        if !swept[at] {
            return Some(at as u32);
        }
    }
    None
}

impl HeldCut {
    /// Whether the cut was closed, and has no marks yet.
    pub fn is_closed(&self) -> bool
        ensures { result ≡ is_phase (phase_of self.now.stage) Phase.Closed }
    {
        match self.stage {
            Stage::Closed { given: _ } => true,
            _ => false,
        }
    }

    /// Whether the cut is in the phase in which pages are swept.
    pub fn is_sweeping(&self) -> bool
        ensures { result ≡ is_phase (phase_of self.now.stage) Phase.Sweeping }
    {
        match self.stage {
            Stage::Sweeping { marked: _ } => true,
            _ => false,
        }
    }
}

impl Held {
    /// Opens a cut with nothing copied. It takes all memory that the cut needs.
    pub fn open(&mut self, alloc: Global, pages: u32, commits: u64) -> Reply
        requires some { 0 < pages }
        requires few { pages ≤ MOST_PAGES }
        ensures other { result ≢ Reply.Refused DiskFault }
        ensures given { KeepsGiven self.old self.new }
        ensures well { (w : World) → Holds self.old w → w.broken ≡ None → w.pages ≡ pages → w.commits ≡ commits → CutSteps self.new w OpenCut result }
    {
        if let Some(held) = &self.cut {
            return refused(Refusal::CutThere {
                number: held.number,
            });
        }
        if self.last_cut >= MOST_COUNTED {
            return refused(Refusal::Spent {
                count: self.last_cut,
            });
        }
        let number = self.last_cut + 1;
        match new_cut(alloc, pages, number, commits) {
            Ok(cut) => {
                self.cut = Some(cut);
                self.last_cut = number;
                Reply::Cut { number }
            }
            Err(Memory) => refused(Refusal::Memory),
        }
    }

    /// Copies a page as its frame stands.
    pub fn copy<L: Ledger>(
        &mut self,
        transactions: &Transactions,
        commits: u64,
        page: u32,
        steps: &mut Steps<L>,
    ) -> Reply
        requires { (w : World) × Holds self.old w × IsReady transactions.now w × (w.commits ≡ commits) }
        ensures other { result ≢ Reply.Refused DiskFault }
        ensures given { KeepsGiven self.old self.new }
        ensures well { (w : World) → Holds self.old w → IsReady transactions.now w → w.commits ≡ commits → CutSteps self.new w (Copy page) result }
        ensures copied { (w : World) → Holds self.old w → IsReady transactions.now w → w.commits ≡ commits → result ≡ Reply.Done → AddsFrame w page (beside_of self.old.cut) (beside_of self.new.cut) }
        ensures step { steps.new ≤ steps.old + 1 }
    {
        let Some(held) = &mut self.cut else {
            return refused(Refusal::NoCut);
        };
        match copy_in(held, transactions, commits, page, steps) {
            Ok(()) => Reply::Done,
            Err(why) => refused(why),
        }
    }

    /// Ends a cut of which each page is swept.
    pub fn end(&mut self) -> Reply
        requires { (w : World) × Holds self.old w }
        ensures other { result ≢ Reply.Refused DiskFault }
        ensures given { KeepsGiven self.old self.new }
        ensures well { (w : World) → Holds self.old w → w.broken ≡ None → CutSteps self.new w EndCut result }
    {
        let Some(held) = &self.cut else {
            return refused(Refusal::NoCut);
        };
        if !held.is_sweeping() {
            return refused(Refusal::WrongPhase {
                now: held.stage.phase(),
            });
        }
        if let Some(page) = first_unswept(&held.swept) {
            return refused(Refusal::Unswept { page });
        }
        self.cut = None;
        Reply::Done
    }

    /// Drops the cut, in whatever phase.
    pub fn drop_cut(&mut self) -> Reply
        ensures other { result ≢ Reply.Refused DiskFault }
        ensures given { KeepsGiven self.old self.new }
        ensures well { (w : World) → Holds self.old w → w.broken ≡ None → CutSteps self.new w DropCut result }
    {
        if self.cut.is_none() {
            return refused(Refusal::NoCut);
        }
        self.cut = None;
        Reply::Done
    }

    /// What a commit gives the cut that is copied: the images of the pages that the transaction wrote,
    /// and the slots in which it made objects.
    pub fn commit<L: Ledger>(
        &mut self,
        transactions: &Transactions,
        txn: u32,
        commits: u64,
        steps: &mut Steps<L>,
    )
        requires holds { (w : World) × Holds self.old w × IsReady transactions.now w × (w.commits ≡ commits) }
        requires is_open { is_some (entry_of transactions.now.table txn) ≡ true }
        requires few { commits < MOST_COUNTED }
        ensures holds { (w : World) → Holds self.old w → IsReady transactions.now w → w.commits ≡ commits → Holds self.new (committed w txn) }
        ensures given { KeepsGiven self.old self.new }
    {
        if let Some(held) = &mut self.cut {
            if let Stage::Copying { cut } = &mut held.stage {
                give_images(cut, transactions, txn, commits + 1, steps);
            }
        }
    }
}
