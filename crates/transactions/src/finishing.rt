//! The end of a transaction.
ghost use Rattle.std.specs.Prelude.{◌≡◌, ℕ, ◌<◌, true, not, nat_eq, filter, is_some, OnOk, OnErr, length, if◌then◌else◌};
ghost use Rattle.object_graph.specs.declared.calls.Call.TheVariants.{Abort};
ghost use Rattle.object_graph.specs.Replies.{done_reply};
ghost use Rattle.store_model.specs.Worlds.{World};
ghost use Rattle.store_model.specs.Causes.{has_page};
ghost use Rattle.store_model.specs.Steps.{committed};
ghost use Rattle.page_buffer.specs.Frames.{frame_at, settled, reverted};
ghost use Rattle.page_locks.specs.Holding.{Releases};
ghost use Rattle.transactions.specs.Tables.{entry_of, pages_in};
ghost use Rattle.transactions.specs.Standing.{IsReady, IsReadyForSome, AreTransactionsOf};
ghost use Rattle.transactions.specs.Calls.{TransactsWell, ChangesFramesOf};

use crate::transactions::Transactions;
use object_graph::Refusal;
use page_buffer::Buffer;

/// Settles the frames of these pages.
fn settle_all(buffer: &mut Buffer, pages: &[u32])
    requires { (page : ℕ) → has_page pages.now page ≡ true → page < length buffer.old }
    ensures count { length buffer.new ≡ length buffer.old }
    ensures frames { (page : ℕ) → frame_at buffer.new page ≡ (if has_page pages.now page then settled (frame_at buffer.old page) else frame_at buffer.old page) }
{
    for page in pages {
        buffer.settle(*page);
    }
}

/// Reverts the frames of these pages.
fn revert_all(buffer: &mut Buffer, pages: &[u32])
    requires { (page : ℕ) → has_page pages.now page ≡ true → page < length buffer.old }
    ensures count { length buffer.new ≡ length buffer.old }
    ensures frames { (page : ℕ) → frame_at buffer.new page ≡ (if has_page pages.now page then reverted (frame_at buffer.old page) else frame_at buffer.old page) }
{
    for page in pages {
        buffer.revert(*page);
    }
}

impl Transactions {
    /// Drops a transaction: the pages that it wrote are as they were committed, and its locks are
    /// released.
    pub fn abort(&mut self, txn: u32) -> Result<(), Refusal>
        requires { IsReadyForSome self.old }
        ensures steps { TransactsWell self.old self.new (Abort txn) (done_reply result) }
        ensures unchanged { OnErr result (self.new ≡ self.old) }
        ensures frames { OnOk result (ChangesFramesOf (pages_in (entry_of self.old.table txn)) self.old.frames self.new.frames) }
    {
        let Some(entry) = self.table.find(txn) else {
            return Err(Refusal::NotOpen);
        };
        revert_all(&mut self.buffer, entry.written());
        self.close(txn);
        Ok(())
    }

    /// Commits an open transaction: the pages that it wrote are settled, and its locks released.
    pub fn finish(&mut self, txn: u32)
        requires ready { IsReadyForSome self.old }
        requires is_open { is_some (entry_of self.old.table txn) ≡ true }
        ensures committed { (w : World) → IsReady self.old w → AreTransactionsOf self.new (committed w txn) }
        ensures frames { ChangesFramesOf (pages_in (entry_of self.old.table txn)) self.old.frames self.new.frames }
    {
        let Some(entry) = self.table.find(txn) else {
            unreachable!();
        };
        settle_all(&mut self.buffer, entry.written());
        self.close(txn);
    }

    /// Releases the locks of a transaction, and takes it out of the table.
    fn close(&mut self, txn: u32)
        ensures table { self.new.table ≡ filter (λ e. not (nat_eq txn e.0)) self.old.table }
        ensures locks { Releases self.old.locks.held self.new.locks.held txn }
        ensures pages { self.new.locks.pages ≡ self.old.locks.pages }
        ensures frames { self.new.frames ≡ self.old.frames }
    {
        self.locks.release_all(txn);
        self.table.remove(txn);
    }
}
