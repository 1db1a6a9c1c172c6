//! What the calls on a page ask first, in the order of the causes.
ghost use Rattle.std.specs.Prelude.{◌≡◌, ◌<◌, true, Some, IfOk, OnOk, length};
ghost use Rattle.std.specs.Result.{result_err};
ghost use Rattle.page_locks.specs.Holding.{is_admitted};
ghost use Rattle.transactions.specs.Tables.{OpenParts, entry_of};
ghost use Rattle.transactions.specs.Standing.{IsReadyForSome};
ghost use Rattle.transactions.specs.Checks.{FirstMet, open_causes, name_causes, field_causes, write_causes, IsOpenWith, IsKnownTo, MayWrite, TakesPage};

use crate::open::Open;
use crate::transactions::Transactions;
use object_graph::{Name, OBJECT_FIELDS, Refusal};
use page_locks::Busy;

impl Transactions {
    /// The entry of an open transaction.
    #[inline(always)]
    pub(crate) fn entry(&self, txn: u32) -> Result<&Open, Refusal>
        requires { IsReadyForSome self.now }
        ensures causes { FirstMet self.now (open_causes txn) (result_err result) }
        ensures found { IfOk result (λ entry. IsOpenWith self.now txn entry.now) }
    {
        match self.table.find(txn) {
            Some(entry) => Ok(entry),
            None => Err(Refusal::NotOpen),
        }
    }

    /// The entry of an open transaction that knows a name.
    #[inline(always)]
    pub(crate) fn entry_knowing(&self, txn: u32, name: Name) -> Result<&Open, Refusal>
        requires { IsReadyForSome self.now }
        ensures causes { FirstMet self.now (name_causes txn name) (result_err result) }
        ensures found { IfOk result (λ entry. IsKnownTo self.now txn name entry.now) }
    {
        let entry = self.entry(txn)?;
        if !entry.knows(name) {
            return Err(Refusal::Stranger);
        }
        Ok(entry)
    }

    /// Whether an object of this name has a field.
    #[inline(always)]
    pub(crate) fn check_field(&self, name: Name, field: u32) -> Result<(), Refusal>
        requires { name.page < length self.now.frames }
        ensures causes { FirstMet self.now (field_causes name field) (result_err result) }
        ensures within { OnOk result (field < OBJECT_FIELDS) }
    {
        if field as usize >= self.buffer.fields_of(name.page()) {
            return Err(Refusal::BadField);
        }
        Ok(())
    }

    /// Whether an open transaction may write a page.
    #[inline(always)]
    pub(crate) fn check_write(&self, txn: u32, entry: &Open, page: u32) -> Result<(), Refusal>
        requires ready { IsReadyForSome self.now }
        requires found { IsOpenWith self.now txn entry.now }
        requires page { page < self.now.locks.pages }
        ensures causes { FirstMet self.now (write_causes txn page) (result_err result) }
        ensures may { OnOk result (MayWrite self.now txn entry.now page) }
    {
        if let Err(Busy { holder }) = self.locks.check_exclusive(txn, page) {
            return Err(Refusal::Busy { holder });
        }
        if entry.is_too_wide(page) {
            return Err(Refusal::TooWide);
        }
        Ok(())
    }

    /// Takes the exclusive lock of a page, and notes the page as written.
    #[inline(always)]
    pub(crate) fn take_page(&mut self, txn: u32, page: u32)
        requires admitted { is_admitted self.old.locks.held txn ≡ true }
        requires page { page < self.old.locks.pages }
        requires may { (e : OpenParts) × (entry_of self.old.table txn ≡ Some e) × MayWrite self.old txn e page }
        ensures { TakesPage txn page self.old self.new }
    {
        let Ok(()) = self.locks.try_exclusive(txn, page) else {
            unreachable!();
        };
        self.table.note_page(txn, page);
    }
}
