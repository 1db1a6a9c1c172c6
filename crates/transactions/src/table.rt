//! The table of open transactions.
ghost use Rattle.std.specs.Prelude.{◌≡◌, ◌<◌, ◌++◌, ◌∷◌, [], false, not, filter, nat_eq, is_some, None, IfOk, OnOk, OnErr, length, option_copied, true, IsSomeAnd, slice_get};
ghost use Rattle.std.specs.List.{IsDistinct};
ghost use Rattle.std.specs.Map.{keys_of};
ghost use Rattle.transactions.specs.Tables.{Entries, OpenParts, entry_of, fresh_entry, is_wide, is_full_for, ChangesEntry, NotesPage, NotesTarget};

use crate::open::Open;
use indexmap::IndexMap;
use object_graph::{MOST_OPEN, Memory, Name};
use std::alloc::Global;
use std::marker::Model;

/// The open transactions by their numbers, in the order in which they began. `new` and `add` take
/// memory, and no other call does. The rooms of transactions that ended are kept for the next ones.
#[derive(Drop)]
pub struct Table {
    alloc: Global,
    entries: IndexMap<u32, Open>,
    rooms: Vec<Open>,
}

impl Model for Table {
    ghost use Rattle.transactions.specs.Tables.{Entries};

    ghost Value = { Entries };

    ghost view = { λ t. t.entries.entries };
}

impl Table {
    pub fn new(alloc: Global) -> Result<Table, Memory>
        ensures { IfOk result (λ table. table ≡ []) }
    {
        let entries = IndexMap::with_capacity(alloc, MOST_OPEN)?;
        let rooms = Vec::with_capacity(alloc, MOST_OPEN)?;
        Ok(Table {
            alloc,
            entries,
            rooms,
        })
    }

    pub fn count(&self) -> usize
        ensures { result ≡ length self.now }
    {
        self.entries.len()
    }

    pub fn has(&self, txn: u32) -> bool
        ensures { result ≡ is_some (entry_of self.now txn) }
    {
        self.find(txn).is_some()
    }

    /// The entry of a transaction. The oldest one is looked at first: often it is the only one.
    #[inline(always)]
    pub fn find(&self, txn: u32) -> Option<&Open>
        ensures { option_copied result ≡ entry_of self.now txn }
    {
        if let Some((number, entry)) = self.entries.get_index(0) {
            if *number == txn {
                return Some(entry);
            }
        }
        self.entries.get(&txn)
    }

    /// Whether the transaction is the oldest one.
    #[inline(always)]
    fn is_oldest(&self, txn: u32) -> bool
        ensures { result ≡ true → IsSomeAnd (slice_get self.now 0) (λ e. e.0 ≡ txn) }
    {
        match self.entries.get_index(0) {
            Some((number, _)) => *number == txn,
            None => false,
        }
    }

    /// Adds a transaction as it begins.
    pub fn add(&mut self, txn: u32) -> Result<(), Memory>
        requires { entry_of self.old txn ≡ None }
        ensures added { OnOk result (self.new ≡ self.old ++ (txn, fresh_entry) ∷ []) }
        ensures unchanged { OnErr result (self.new ≡ self.old) }
    {
        let entry = self.room()?;
        self.entries.insert(txn, entry)?;
        Ok(())
    }

    /// The room of a transaction that ended, or a new one.
    fn room(&mut self) -> Result<Open, Memory>
        ensures fresh { IfOk result (λ room. room ≡ fresh_entry) }
        ensures same { self.new ≡ self.old }
    {
        let Some(mut room) = self.rooms.pop() else {
            return Open::new(self.alloc);
        };
        room.clear();
        Ok(room)
    }

    /// Notes a page as written by a transaction.
    #[inline(always)]
    pub fn note_page(&mut self, txn: u32, page: u32)
        requires { (e : OpenParts) → entry_of self.old txn ≡ Some e → is_wide e.written page ≡ false }
        ensures { ChangesEntry (NotesPage page) txn self.old self.new }
    {
        if self.is_oldest(txn) {
            if let Some(entry) = self.entries.get_index_mut(0) {
                entry.note_page(page);
            }
            return;
        }
        if let Some(entry) = self.entries.get_mut(&txn) {
            entry.note_page(page);
        }
    }

    /// Notes a name that was answered as known to a transaction.
    #[inline(always)]
    pub fn note_target(&mut self, txn: u32, target: &Option<Name>)
        requires { (e : OpenParts) → entry_of self.old txn ≡ Some e → is_full_for e.known target.now ≡ false }
        ensures { ChangesEntry (NotesTarget target.now) txn self.old self.new }
    {
        if self.is_oldest(txn) {
            if let Some(entry) = self.entries.get_index_mut(0) {
                entry.note_target(target);
            }
            return;
        }
        if let Some(entry) = self.entries.get_mut(&txn) {
            entry.note_target(target);
        }
    }

    /// Takes a transaction out, and keeps its room.
    pub fn remove(&mut self, txn: u32)
        ensures { self.new ≡ filter (λ e. not (nat_eq txn e.0)) self.old }
    {
        self.numbers_are_apart();
        let Some(room) = self.entries.shift_remove(&txn) else {
            return;
        };
        self.keep(room);
    }

    /// Keeps the room of a transaction that ended.
    fn keep(&mut self, room: Open)
        ensures { self.new ≡ self.old }
    {
        if self.rooms.len() < self.rooms.capacity() {
            self.rooms.push_reserved(room);
        }
    }

    /// No number is there twice: it does nothing else.
    fn numbers_are_apart(&self)
        ensures { IsDistinct nat_eq (keys_of self.now) }
    {
        let _ = self.entries.len();
    }
}
