//! The table of locks.
ghost use Rattle.std.specs.Prelude.{◌≡◌, ℕ, ◌<◌, ◌≤◌, ◌++◌, ◌∷◌, ◌||◌, [], true, false, IfOk, IfErr, OnOk, OnErr, length};
ghost use Rattle.page_locks.specs.Holding.{numbers, shares, excludes, is_admitted, is_in_way, IsNobody, IsLeast, HaveSameLocks, AddsShared, AddsExclusive, Releases, KeepsApart};
ghost use Rattle.page_locks.specs.Words.{to_write};
ghost use Rattle.page_locks.specs.Places.{AddsLock, IsLeastInWay};

use crate::admitted::{Admitted, drop_admitted};
use crate::holders::{Holders, Mode, NOBODY, vacate};
use crate::seats::{SLOTS, Seat, free_place, free_seats, least_number, note_place, place_of};
use object_graph::{MOST_OPEN, Memory};
use std::alloc::Global;
use std::marker::Model;

/// As many transactions are admitted as can be.
#[derive(Clone, Copy, Debug, PartialEq, Eq)]
pub struct TooMany;

/// Another transaction holds a lock that is in the way: the least such number.
#[derive(Clone, Copy, Debug, PartialEq, Eq)]
pub struct Busy {
    pub holder: u32,
}

/// Locks on the pages below a count. Contracts see that count, and who holds what.
///
/// A transaction that is admitted has a place below 64; each page has a word of those places for
/// each mode. All memory is taken by `new`, for as many transactions as can be admitted. No call but
/// `release_all` takes a lock back.
#[derive(Drop)]
pub struct Locks {
    pages: u32,
    holders: Vec<Holders>,
    admitted: Vec<Admitted>,
    seats: Vec<Seat>,
    noted: Vec<u8>,
}

impl Model for Locks {
    ghost use Rattle.std.specs.Prelude.{◌≤◌, vec_capacity};
    ghost use Rattle.object_graph.specs.declared.limits.TheConstants.{MOST_OPEN};
    ghost use Rattle.page_locks.specs.Holding.{LockTable};
    ghost use Rattle.page_locks.specs.Places.{IsLockTable, locks_of};

    ghost Value = { LockTable };

    ghost view = { λ l. record { pages = l.pages; held = locks_of l.holders.items l.admitted.items } };

    ghost invariant = { λ l. (MOST_OPEN ≤ vec_capacity l.admitted) × IsLockTable l.pages l.holders.items l.admitted.items l.seats.items };
}

impl Locks {
    /// No transaction is admitted, and none holds a lock.
    pub fn new(alloc: Global, pages: u32) -> Result<Locks, Memory>
        ensures pages { IfOk result (λ locks. locks.pages ≡ pages) }
        ensures empty { IfOk result (λ locks. locks.held ≡ []) }
    {
        let holders = vec![in alloc; NOBODY; pages as usize]?;
        let admitted = Vec::with_capacity(alloc, MOST_OPEN)?;
        let seats = free_seats(alloc, pages)?;
        let noted = vec![in alloc; 0; SLOTS]?;
        Ok(Locks {
            pages,
            holders,
            admitted,
            seats,
            noted,
        })
    }

    /// The count of pages with which the table was made.
    pub fn pages(&self) -> u32
        ensures { result ≡ self.now.pages }
    {
        self.pages
    }

    /// Admits a transaction, without locks.
    pub fn admit(&mut self, txn: u32) -> Result<(), TooMany>
        requires { is_admitted self.old.held txn ≡ false }
        ensures room { OnOk result (length self.old.held < MOST_OPEN) }
        ensures admitted { OnOk result (numbers self.new.held ≡ numbers self.old.held ++ txn ∷ []) }
        ensures locks { OnOk result (HaveSameLocks self.old.held self.new.held) }
        ensures full { OnErr result (length self.old.held ≡ MOST_OPEN) }
        ensures unchanged { OnErr result (self.new ≡ self.old) }
        ensures pages { self.new.pages ≡ self.old.pages }
    {
        let Some(place) = free_place(&self.seats) else {
            return Err(TooMany);
        };
        self.seats[place].txn = Some(txn);
        note_place(&mut self.noted, txn, place);
        self.admitted.push_reserved(Admitted { txn, place });
        Ok(())
    }

    /// Whether the transaction is admitted.
    pub fn admitted(&self, txn: u32) -> bool
        ensures { result ≡ is_admitted self.now.held txn }
    {
        place_of(&self.seats, &self.noted, txn).is_some()
    }

    /// Whether `try_shared` would give the lock.
    pub fn check_shared(&self, txn: u32, page: u32) -> Result<(), Busy>
        requires admitted { is_admitted self.now.held txn ≡ true }
        requires page { page < self.now.pages }
        ensures free { OnOk result (IsNobody (is_in_way false self.now.held txn page)) }
        ensures busy { IfErr result (λ busy. IsLeast (is_in_way false self.now.held txn page) busy.holder) }
    {
        self.check(txn, page, Mode::Shared)
    }

    /// Whether `try_exclusive` would give the lock.
    pub fn check_exclusive(&self, txn: u32, page: u32) -> Result<(), Busy>
        requires admitted { is_admitted self.now.held txn ≡ true }
        requires page { page < self.now.pages }
        ensures free { OnOk result (IsNobody (is_in_way true self.now.held txn page)) }
        ensures busy { IfErr result (λ busy. IsLeast (is_in_way true self.now.held txn page) busy.holder) }
    {
        self.check(txn, page, Mode::Exclusive)
    }

    /// Takes the shared lock of a page.
    pub fn try_shared(&mut self, txn: u32, page: u32) -> Result<(), Busy>
        requires admitted { is_admitted self.old.held txn ≡ true }
        requires page { page < self.old.pages }
        ensures free { OnOk result (IsNobody (is_in_way false self.old.held txn page)) }
        ensures taken { OnOk result (AddsShared self.old.held self.new.held txn page) }
        ensures busy { IfErr result (λ busy. IsLeast (is_in_way false self.old.held txn page) busy.holder) }
        ensures unchanged { OnErr result (self.new ≡ self.old) }
        ensures pages { self.new.pages ≡ self.old.pages }
    {
        self.take(txn, page, Mode::Shared)
    }

    /// Takes the exclusive lock of a page. One who shares it alone is given it.
    pub fn try_exclusive(&mut self, txn: u32, page: u32) -> Result<(), Busy>
        requires admitted { is_admitted self.old.held txn ≡ true }
        requires page { page < self.old.pages }
        ensures free { OnOk result (IsNobody (is_in_way true self.old.held txn page)) }
        ensures taken { OnOk result (AddsExclusive self.old.held self.new.held txn page) }
        ensures busy { IfErr result (λ busy. IsLeast (is_in_way true self.old.held txn page) busy.holder) }
        ensures unchanged { OnErr result (self.new ≡ self.old) }
        ensures pages { self.new.pages ≡ self.old.pages }
    {
        self.take(txn, page, Mode::Exclusive)
    }

    /// Takes back all locks of a transaction, and its admission.
    pub fn release_all(&mut self, txn: u32)
        ensures released { Releases self.old.held self.new.held txn }
        ensures pages { self.new.pages ≡ self.old.pages }
    {
        let Some(place) = place_of(&self.seats, &self.noted, txn) else {
            return;
        };
        vacate(&mut self.holders, &self.seats[place].pages, place);
        self.seats[place].leave();
        drop_admitted(&mut self.admitted, txn);
    }

    /// Where one holds a page exclusive, nobody else holds it, and whoever asks for what it holds
    /// is given it.
    pub fn keeps_apart(&self)
        ensures apart { KeepsApart self.now.held }
        ensures shared { (txn page : ℕ) → (shares self.now.held txn page || excludes self.now.held txn page) ≡ true → IsNobody (is_in_way false self.now.held txn page) }
        ensures exclusive { (txn page : ℕ) → excludes self.now.held txn page ≡ true → IsNobody (is_in_way true self.now.held txn page) }
    {
        let _ = &self.admitted;
    }

    /// Whether `take` would give the lock.
    fn check(&self, txn: u32, page: u32, mode: Mode) -> Result<(), Busy>
        requires admitted { is_admitted self.now.held txn ≡ true }
        requires page { page < self.now.pages }
        ensures free { OnOk result (IsNobody (is_in_way (to_write mode) self.now.held txn page)) }
        ensures busy { IfErr result (λ busy. IsLeast (is_in_way (to_write mode) self.now.held txn page) busy.holder) }
    {
        let Some(place) = place_of(&self.seats, &self.noted, txn) else {
            unreachable!();
        };
        match in_way(&self.holders, &self.seats, place, page, mode) {
            None => Ok(()),
            Some(holder) => Err(Busy { holder }),
        }
    }

    /// Takes a lock of a page.
    fn take(&mut self, txn: u32, page: u32, mode: Mode) -> Result<(), Busy>
        requires admitted { is_admitted self.old.held txn ≡ true }
        requires page { page < self.old.pages }
        ensures free { OnOk result (IsNobody (is_in_way (to_write mode) self.old.held txn page)) }
        ensures taken { OnOk result (AddsLock mode self.old.held self.new.held txn page) }
        ensures busy { IfErr result (λ busy. IsLeast (is_in_way (to_write mode) self.old.held txn page) busy.holder) }
        ensures unchanged { OnErr result (self.new ≡ self.old) }
        ensures pages { self.new.pages ≡ self.old.pages }
    {
        let Some(place) = place_of(&self.seats, &self.noted, txn) else {
            unreachable!();
        };
        if let Some(holder) = in_way(&self.holders, &self.seats, place, page, mode) {
            return Err(Busy { holder });
        }
        self.holders[page as usize].add(place, mode);
        self.seats[place].pages.insert(page);
        Ok(())
    }
}

/// The least number that is in the way of the one at a place.
fn in_way(holders: &[Holders], seats: &[Seat], place: usize, page: u32, mode: Mode) -> Option<u32>
    requires place { place < 64 }
    requires page { page < length holders.now }
    requires seats { length seats.now ≡ MOST_OPEN }
    ensures { IsLeastInWay holders.now seats.now place page mode result }
{
    let places = holders[page as usize].in_way(place, mode);
    if places == 0 {
        return None;
    }
    least_number(seats, places)
}
