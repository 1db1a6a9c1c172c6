//! The table, the locks and the frames.
ghost use Rattle.std.specs.Prelude.{◌≡◌, ℕ, ◌+◌, ◌≤◌, ◌<◌, true, is_some, IfOk, OnErr, IsTrue, length};
ghost use Rattle.object_graph.specs.Slots.{has_slot};
ghost use Rattle.object_graph.specs.declared.calls.Call.TheVariants.{Begin};
ghost use Rattle.object_graph.specs.Replies.{done_reply};
ghost use Rattle.store_model.specs.Worlds.{World};
ghost use Rattle.std.specs.List.{AllByRecursion};
ghost use Rattle.store_model.specs.FromImages.{world_of, has_root, IsWhole};
ghost use Rattle.store_model.specs.Steps.{swept};
ghost use Rattle.page_image.specs.Pages.{IsPage, slot_at};
ghost use Rattle.page_buffer.specs.Frames.{frame_at, with_frame, freed_frame};
ghost use Rattle.transactions.specs.Tables.{entry_of, pages_in, written_at, IsAscending};
ghost use Rattle.transactions.specs.Standing.{page_images, AreNumbered, IsReady, IsReadyForSome, AreTransactionsOf};
ghost use Rattle.transactions.specs.Calls.{AreOutOfReach, TransactsWell};

use crate::table::Table;
use object_graph::{MOST_OPEN, MOST_PAGES, MOST_WRITTEN, Memory, Refusal, SlotSet, Steps};
use page_buffer::{Buffer, Frame};
use page_image::Page;
use page_locks::Locks;
use std::alloc::Global;
use std::marker::Model;
use std::sync::ledger::Ledger;

/// Open transactions over the frames of a store's pages, under strict two-phase page locks. Contracts
/// see the table, the locks and the frames, and say for each world for which they stand that the
/// answer is one that the model allows and that they stand for the world after. A refusal takes no
/// lock and changes nothing. After `begin` no call takes memory (ARCHITECTURE.md, "Transactions").
#[derive(Drop)]
pub struct Transactions {
    pub(crate) table: Table,
    pub(crate) locks: Locks,
    pub(crate) buffer: Buffer,
}

impl Model for Transactions {
    ghost use Rattle.transactions.specs.Standing.{TransactionsParts};

    ghost Value = { TransactionsParts };

    ghost view = { λ t. record { table = t.table; locks = t.locks; frames = t.buffer } };
}

/// What each page is: it does nothing else.
fn are_pages(pages: &[Page])
    ensures { AllByRecursion IsPage pages.now }
{
    for page in pages {
        page.is_page();
    }
}

impl Transactions {
    /// The store that has just been opened from these pages, page 0 first: what they show is
    /// committed, and no transaction is open.
    pub fn new(alloc: Global, pages: Vec<Page>) -> Result<Transactions, Memory>
        requires few { length pages.items ≤ MOST_PAGES }
        requires numbered { AreNumbered pages.items }
        requires root { IsTrue (has_root (page_images pages.items)) }
        requires whole { IsWhole (page_images pages.items) }
        ensures ready { IfOk result (λ s. (commits : ℕ) → IsReady s (world_of commits (page_images pages.items))) }
    {
        are_pages(&pages);
        let table = Table::new(alloc)?;
        let locks = Locks::new(alloc, pages.len() as u32)?;
        match Buffer::new(alloc, pages) {
            Ok(buffer) => Ok(Transactions {
                table,
                locks,
                buffer,
            }),
            Err((_, lack)) => Err(lack),
        }
    }

    /// Opens a transaction. It knows the root and nothing else.
    pub fn begin(&mut self, txn: u32) -> Result<(), Refusal>
        requires { IsReadyForSome self.old }
        ensures steps { TransactsWell self.old self.new (Begin txn) (done_reply result) }
        ensures unchanged { OnErr result (self.new ≡ self.old) }
        ensures frames { self.new.frames ≡ self.old.frames }
    {
        if self.table.has(txn) {
            return Err(Refusal::AlreadyOpen);
        }
        if self.table.count() >= MOST_OPEN {
            return Err(Refusal::TooMany);
        }
        if let Err(Memory) = self.table.add(txn) {
            return Err(Refusal::Memory);
        }
        let Ok(()) = self.locks.admit(txn) else {
            unreachable!();
        };
        Ok(())
    }

    /// Whether the transaction is open.
    pub fn is_open(&self, txn: u32) -> bool
        ensures { result ≡ is_some (entry_of self.now.table txn) }
    {
        self.table.has(txn)
    }

    /// How many pages there are.
    pub fn pages(&self) -> u32
        ensures { result ≡ length self.now.frames }
    {
        self.buffer.count()
    }

    /// The page at this place of those that the transaction wrote, ascending.
    pub fn written(&self, txn: u32, at: u32) -> Option<u32>
        ensures page { result ≡ written_at self.now.table txn at }
        ensures ascending { (e : _) → entry_of self.now.table txn ≡ Some e → IsAscending e.written }
        ensures few { (e : _) → entry_of self.now.table txn ≡ Some e → length e.written ≤ MOST_WRITTEN }
    {
        let entry = self.table.find(txn)?;
        entry.written().get(at as usize).copied()
    }

    /// The pages that a transaction wrote. It has none where it isn't open.
    pub fn pages_written(&self, txn: u32) -> &[u32]
        ensures pages { result.now ≡ pages_in (entry_of self.now.table txn) }
        ensures ascending { IsAscending result.now }
        ensures few { length result.now ≤ MOST_WRITTEN }
    {
        match self.table.find(txn) {
            Some(entry) => entry.written(),
            None => &[],
        }
    }

    /// The frame of a page. It is one step of the counter.
    pub fn frame<L: Ledger>(&self, page: u32, steps: &mut Steps<L>) -> &Frame
        requires { page < length self.now.frames }
        ensures value { result.now ≡ frame_at self.now.frames page }
        ensures step { steps.new ≡ steps.old + 1 }
    {
        self.buffer.frame(page, steps)
    }

    /// Frees slots of a page in its committed image and in what a transaction wrote there. It is one
    /// step of the counter.
    pub fn free<L: Ledger>(&mut self, page: u32, slots: SlotSet, steps: &mut Steps<L>)
        requires page { page < length self.old.frames }
        requires used { (slot : ℕ) → IsTrue (has_slot slots slot) → (slot_at (frame_at self.old.frames page).before slot).in_use ≡ true }
        requires out { (w : World) × IsReady self.old w × AreOutOfReach w page slots }
        ensures swept { (w : World) → IsReady self.old w → AreTransactionsOf self.new (swept w page slots) }
        ensures frames { self.new ≡ record self.old { frames = with_frame self.old.frames page (freed_frame slots (frame_at self.old.frames page)) } }
        ensures step { steps.new ≡ steps.old + 1 }
    {
        self.buffer.free(page, slots, steps);
    }
}
