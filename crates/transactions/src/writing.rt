//! What a transaction writes and makes.
ghost use Rattle.std.specs.Prelude.{◌≡◌, ◌+◌, ◌≤◌, [], ◌∷◌, OnOk, OnErr};
ghost use Rattle.object_graph.specs.declared.calls.Call.TheVariants.{New, Put, Set};
ghost use Rattle.object_graph.specs.Replies.{done_reply, made_reply};
ghost use Rattle.transactions.specs.Standing.{IsReadyForSome};
ghost use Rattle.transactions.specs.Calls.{TransactsWell, ChangesFramesOf};

use crate::transactions::Transactions;
use object_graph::{Name, Refusal, Steps};
use std::sync::ledger::Ledger;

impl Transactions {
    /// Sets a reference of an object. The transaction has the page of the object exclusive from then
    /// on.
    pub fn set<L: Ledger>(
        &mut self,
        txn: u32,
        name: Name,
        field: u32,
        target: Option<Name>,
        steps: &mut Steps<L>,
    ) -> Result<(), Refusal>
        requires { IsReadyForSome self.old }
        ensures steps { TransactsWell self.old self.new (Set txn name field target) (done_reply result) }
        ensures unchanged { OnErr result (self.new ≡ self.old) }
        ensures frames { OnOk result (ChangesFramesOf (name.page ∷ []) self.old.frames self.new.frames) }
        ensures ticks { steps.new ≤ steps.old + 1 }
    {
        let entry = self.entry_knowing(txn, name)?;
        if !entry.knows_target(&target) {
            return Err(Refusal::Stranger);
        }
        self.check_field(name, field)?;
        let page = name.page();
        self.check_write(txn, entry, page)?;
        self.take_page(txn, page);
        self.buffer
            .write_ref(page, name.slot(), field, target, steps);
        Ok(())
    }

    /// Sets the number of an object. The transaction has the page of the object exclusive from then
    /// on.
    pub fn put<L: Ledger>(
        &mut self,
        txn: u32,
        name: Name,
        value: u64,
        steps: &mut Steps<L>,
    ) -> Result<(), Refusal>
        requires { IsReadyForSome self.old }
        ensures steps { TransactsWell self.old self.new (Put txn name value) (done_reply result) }
        ensures unchanged { OnErr result (self.new ≡ self.old) }
        ensures frames { OnOk result (ChangesFramesOf (name.page ∷ []) self.old.frames self.new.frames) }
        ensures ticks { steps.new ≤ steps.old + 1 }
    {
        let entry = self.entry_knowing(txn, name)?;
        let page = name.page();
        self.check_write(txn, entry, page)?;
        self.take_page(txn, page);
        self.buffer.write_number(page, name.slot(), value, steps);
        Ok(())
    }

    /// A new object on a page, with number 0 and no references. The transaction knows its name, and
    /// has the page exclusive from then on.
    pub fn create<L: Ledger>(
        &mut self,
        txn: u32,
        page: u32,
        steps: &mut Steps<L>,
    ) -> Result<Name, Refusal>
        requires { IsReadyForSome self.old }
        ensures steps { TransactsWell self.old self.new (New txn page) (made_reply result) }
        ensures unchanged { OnErr result (self.new ≡ self.old) }
        ensures frames { OnOk result (ChangesFramesOf (page ∷ []) self.old.frames self.new.frames) }
        ensures ticks { steps.new ≤ steps.old + 1 }
    {
        let entry = self.entry(txn)?;
        if page >= self.buffer.count() {
            return Err(Refusal::NoPage);
        }
        self.check_write(txn, entry, page)?;
        if entry.knows_most() {
            return Err(Refusal::KnowsTooMany);
        }
        let Ok(name) = self.buffer.take_slot(page, steps) else {
            return Err(Refusal::PageFull { page });
        };
        self.take_page(txn, page);
        self.table.note_target(txn, &Some(name));
        Ok(name)
    }
}
