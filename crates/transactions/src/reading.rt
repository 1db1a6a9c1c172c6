//! What a transaction reads.
ghost use Rattle.std.specs.Prelude.{◌≡◌, ◌+◌, ◌<◌, ◌≤◌, OnErr, length};
ghost use Rattle.object_graph.specs.declared.calls.Call.TheVariants.{Get, Number};
ghost use Rattle.object_graph.specs.Replies.{num_reply, ref_reply};
ghost use Rattle.page_image.specs.Pages.{object_at};
ghost use Rattle.page_buffer.specs.Frames.{frame_at};
ghost use Rattle.transactions.specs.Standing.{IsReadyForSome};
ghost use Rattle.transactions.specs.Calls.{TransactsWell};

use crate::transactions::Transactions;
use object_graph::{Name, Object, Refusal, Steps};
use page_buffer::Buffer;
use page_locks::Busy;
use std::sync::ledger::Ledger;

/// The object of this name in the current image of its page.
#[inline(always)]
fn object_seen<L: Ledger>(buffer: &Buffer, name: Name, steps: &mut Steps<L>) -> Option<Object>
    requires { name.page < length buffer.now }
    ensures object { result ≡ object_at (frame_at buffer.now name.page).current name.slot }
    ensures step { steps.new ≡ steps.old + 1 }
{
    let frame = buffer.frame(name.page(), steps);
    frame.current.object(name.slot())
}

impl Transactions {
    /// The reference in a field of an object. The transaction knows its target from then on, and has
    /// the page of the object shared.
    pub fn get<L: Ledger>(
        &mut self,
        txn: u32,
        name: Name,
        field: u32,
        steps: &mut Steps<L>,
    ) -> Result<Option<Name>, Refusal>
        requires { IsReadyForSome self.old }
        ensures steps { TransactsWell self.old self.new (Get txn name field) (ref_reply result) }
        ensures unchanged { OnErr result (self.new ≡ self.old) }
        ensures frames { self.new.frames ≡ self.old.frames }
        ensures ticks { steps.new ≤ steps.old + 1 }
    {
        let entry = self.entry_knowing(txn, name)?;
        self.check_field(name, field)?;
        let page = name.page();
        if let Err(Busy { holder }) = self.locks.check_shared(txn, page) {
            return Err(Refusal::Busy { holder });
        }
        let Some(object) = object_seen(&self.buffer, name, steps) else {
            unreachable!();
        };
        let target = object.refs[field as usize];
        if entry.has_no_room_for(&target) {
            return Err(Refusal::KnowsTooMany);
        }
        let Ok(()) = self.locks.try_shared(txn, page) else {
            unreachable!();
        };
        self.table.note_target(txn, &target);
        Ok(target)
    }

    /// The number of an object. The transaction has the page of the object shared from then on.
    pub fn number<L: Ledger>(
        &mut self,
        txn: u32,
        name: Name,
        steps: &mut Steps<L>,
    ) -> Result<u64, Refusal>
        requires { IsReadyForSome self.old }
        ensures steps { TransactsWell self.old self.new (Number txn name) (num_reply result) }
        ensures unchanged { OnErr result (self.new ≡ self.old) }
        ensures frames { self.new.frames ≡ self.old.frames }
        ensures ticks { steps.new ≤ steps.old + 1 }
    {
        self.entry_knowing(txn, name)?;
        let page = name.page();
        if let Err(Busy { holder }) = self.locks.try_shared(txn, page) {
            return Err(Refusal::Busy { holder });
        }
        let Some(object) = object_seen(&self.buffer, name, steps) else {
            unreachable!();
        };
        Ok(object.number)
    }
}
