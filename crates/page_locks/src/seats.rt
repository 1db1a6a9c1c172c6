//! The places of transactions.
ghost use Rattle.std.specs.Prelude.{◌≡◌, ◌≢◌, ℕ, ◌<◌, false, None, Some, IfNone, IfOk, IfSome, length};
ghost use Rattle.page_locks.specs.Sets.{in_set};
ghost use Rattle.page_locks.specs.Places.{transaction_at, smaller_of, IsLeastMarked, AreFresh};

use crate::page_set::PageSet;
use object_graph::{MOST_OPEN, Memory};
use std::alloc::Global;

/// So many slots note the places of transactions.
pub const SLOTS: usize = 1_024;

/// Who has a place, and the pages that it may hold.
#[derive(Drop)]
pub struct Seat {
    pub txn: Option<u32>,
    pub pages: PageSet,
}

impl Seat {
    /// Makes the place free.
    pub fn leave(&mut self)
        ensures free { self.new.txn ≡ None }
        ensures none { (p : ℕ) → in_set self.new.pages p ≡ false }
        ensures room { length self.new.pages ≡ length self.old.pages }
    {
        self.txn = None;
        self.pages.clear();
    }
}

/// All places, free.
pub fn free_seats(alloc: Global, pages: u32) -> Result<Vec<Seat>, Memory>
    ensures { IfOk result (λ seats. AreFresh pages seats.items) }
{
    let mut seats = Vec::with_capacity(alloc, MOST_OPEN)?;
    'seats: for _ in 0..MOST_OPEN {
        let pages = PageSet::empty(alloc, pages)?;
        seats.push(Seat { txn: None, pages })?;
    }
    Ok(seats)
}

/// The place of a transaction. It is mostly where it was noted; where another with the same slot was
/// noted since, all places are looked at.
pub fn place_of(seats: &[Seat], noted: &[u8], txn: u32) -> Option<usize>
    requires { length seats.now ≡ MOST_OPEN }
    ensures within { IfSome result (λ place. place < MOST_OPEN) }
    ensures some { IfSome result (λ place. transaction_at seats.now place ≡ Some txn) }
    ensures none { IfNone result ((q : ℕ) → transaction_at seats.now q ≢ Some txn) }
{
    let place = noted_place(noted, txn);
    if place < MOST_OPEN && seats[place].txn == Some(txn) {
        return Some(place);
    }
    seat_with(seats, Some(txn))
}

fn noted_place(noted: &[u8], txn: u32) -> usize {
    match noted.get(slot_of(txn)) {
        Some(place) => *place as usize,
        None => MOST_OPEN,
    }
}

/// Notes the place of a transaction.
pub fn note_place(noted: &mut [u8], txn: u32, place: usize)
    requires { place < MOST_OPEN }
{
    if let Some(slot) = noted.get_mut(slot_of(txn)) {
        *slot = place as u8;
    }
}

/// Where the place of a transaction is noted: numbers that follow each other, and those of equal
/// distances, have mostly different slots.
fn slot_of(txn: u32) -> usize {
    (txn.wrapping_mul(2_654_435_769) >> 22) as usize
}

/// The least free place.
pub fn free_place(seats: &[Seat]) -> Option<usize>
    requires { length seats.now ≡ MOST_OPEN }
    ensures within { IfSome result (λ place. place < MOST_OPEN) }
    ensures some { IfSome result (λ place. transaction_at seats.now place ≡ None) }
    ensures none { IfNone result ((q : ℕ) → q < MOST_OPEN → transaction_at seats.now q ≢ None) }
{
    seat_with(seats, None)
}

/// The first seat of this number.
fn seat_with(seats: &[Seat], txn: Option<u32>) -> Option<usize>
    requires { length seats.now ≡ MOST_OPEN }
    ensures within { IfSome result (λ place. place < MOST_OPEN) }
    ensures some { IfSome result (λ place. transaction_at seats.now place ≡ txn) }
    ensures none { IfNone result ((q : ℕ) → q < MOST_OPEN → transaction_at seats.now q ≢ txn) }
{
    'places: for (place, seat) in seats.iter().enumerate() {
        if seat.txn == txn {
            return Some(place);
        }
    }
    None
}

/// The least number at the places of a word.
pub fn least_number(seats: &[Seat], places: u64) -> Option<u32>
    requires { length seats.now ≡ MOST_OPEN }
    ensures { IsLeastMarked seats.now places MOST_OPEN result }
{
    let mut least: Option<u32> = None;
    'places: for (place, seat) in seats.iter().enumerate() {
        if (places >> place) & 1 == 1 {
            least = smaller(seat.txn, least);
        }
    }
    least
}

fn smaller(one: Option<u32>, other: Option<u32>) -> Option<u32>
    ensures { result ≡ smaller_of one other }
{
    match (one, other) {
        (Some(number), Some(least)) if least < number => other,
        (Some(_), _) => one,
        _ => other,
    }
}
