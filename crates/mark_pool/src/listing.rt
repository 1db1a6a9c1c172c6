//! What is marked and not scanned, and the marks, as the seat with all parts reads them.
ghost use Rattle.std.specs.Int.{bit_at};
ghost use Rattle.std.specs.Prelude.{◌≡◌, ℕ, ◌<◌, ◌⊎◌, None, length, IfOk, IfSome};
ghost use Rattle.std.specs.List.{All};
ghost use Rattle.mark_pool.specs.Edges.{IsMarkAt};
ghost use Rattle.mark_pool.specs.Marks.{all_parts};
ghost use Rattle.mark_pool.specs.Seats.{IsSeatOf};
ghost use Rattle.mark_pool.specs.Walks.{AreClaims, AreClosedOn, IsClosedOn, IsListed, IsOpen, Looks};

use crate::place::Place;
use crate::table::{MarkSeat, MarkTable};
use crate::words::{lowest, open_of, without_lowest};
use cut_builder::ClosedCut;
use object_graph::{MOST_SLOTS, Memory, SlotSet};
use std::alloc::Global;

/// Lists a place.
fn put(cut: &ClosedCut, list: &mut Vec<Place>, place: Place) -> Result<(), Memory>
    requires place { IsListed cut.now place }
    requires listed { All (IsListed cut.now) list.old.items }
    ensures { All (IsListed cut.now) list.new.items }
{
    match list.push(place) {
        Ok(()) => Ok(()),
        Err(_) => Err(Memory),
    }
}

/// Lists the place of the lowest 1 of a word of marks, and clears it.
fn put_lowest(cut: &ClosedCut, page: u32, left: u64, list: &mut Vec<Place>) -> Result<u64, Memory>
    requires page { page < length cut.now.pages }
    requires some { 0 < left }
    requires marks { (slot : ℕ) → bit_at left slot ≡ 1 → IsMarkAt cut.now page slot × (slot < MOST_SLOTS) }
    requires listed { All (IsListed cut.now) list.old.items }
    ensures rest { IfOk result (λ rest. (slot : ℕ) → bit_at rest slot ≡ 1 → bit_at left slot ≡ 1) }
    ensures listed { All (IsListed cut.now) list.new.items }
{
    let slot = lowest(left);
    put(cut, list, Place { page, slot })?;
    Ok(without_lowest(left))
}

/// Lists the places of a page whose bits are 1.
fn list_open(cut: &ClosedCut, page: u32, left: u64, list: &mut Vec<Place>) -> Result<(), Memory>
    requires page { page < length cut.now.pages }
    requires marks { (slot : ℕ) → bit_at left slot ≡ 1 → IsMarkAt cut.now page slot × (slot < MOST_SLOTS) }
    requires listed { All (IsListed cut.now) list.old.items }
    ensures { All (IsListed cut.now) list.new.items }
{
    let mut rest = left;
    'slots: for _ in 0..MOST_SLOTS {
        if rest == 0 {
            break;
        }
        rest = put_lowest(cut, page, rest, list)?;
    }
    Ok(())
}

/// Lists the places of a page that are marked and not scanned, and gives the first of them.
fn list_page(
    table: &MarkTable,
    cut: &ClosedCut,
    seat: &mut MarkSeat,
    page: u32,
    list: &mut Vec<Place>,
) -> Result<Option<Place>, Memory>
    requires cut { table.now.cut ≡ cut.now }
    requires own { IsSeatOf table.now seat.old }
    requires parts { seat.old.parts ≡ all_parts }
    requires page { page < length cut.now.pages }
    requires listed { All (IsListed cut.now) list.old.items }
    ensures looks { Looks seat.old seat.new }
    ensures listed { All (IsListed cut.now) list.new.items }
    ensures first { IfOk result (λ first. IfSome first (IsOpen cut.now seat.old.scans)) }
    ensures closed { IfOk result (λ first. first ≡ None → IsClosedOn cut.now seat.old.claims page) }
{
    let marked = seat.marks(table, page);
    let scanned = seat.scans(table, page);
    let left = open_of(marked, scanned);
    if left == 0 {
        return Ok(None);
    }
    list_open(cut, page, left, list)?;
    let slot = lowest(left);
    Ok(Some(Place { page, slot }))
}

/// Lists all places that are marked and not scanned, and gives the first of them.
pub(crate) fn list_all(
    table: &MarkTable,
    cut: &ClosedCut,
    seat: &mut MarkSeat,
    list: &mut Vec<Place>,
) -> Result<Option<Place>, Memory>
    requires cut { table.now.cut ≡ cut.now }
    requires own { IsSeatOf table.now seat.old }
    requires parts { seat.old.parts ≡ all_parts }
    requires listed { All (IsListed cut.now) list.old.items }
    ensures looks { Looks seat.old seat.new }
    ensures listed { All (IsListed cut.now) list.new.items }
    ensures first { IfOk result (λ first. IfSome first (IsOpen cut.now seat.old.scans)) }
    ensures closed { IfOk result (λ first. first ≡ None → AreClosedOn cut.now seat.old.claims (length cut.now.pages)) }
{
    let mut first = None;
    'pages: for page in 0..cut.pages() {
        let found = list_page(table, cut, seat, page, list)?;
        first = first_of(first, found);
    }
    Ok(first)
}

/// The first of two places that may be there.
fn first_of(first: Option<Place>, second: Option<Place>) -> Option<Place>
    ensures one { (result ≡ first) ⊎ (result ≡ second) }
    ensures none { result ≡ None → (first ≡ None) × (second ≡ None) }
{
    match first {
        Some(place) => Some(place),
        None => second,
    }
}

/// The marked slots of each page.
pub(crate) fn read_marks(
    alloc: Global,
    table: &MarkTable,
    cut: &ClosedCut,
    seat: &mut MarkSeat,
) -> Result<Vec<SlotSet>, Memory>
    requires cut { table.now.cut ≡ cut.now }
    requires own { IsSeatOf table.now seat.old }
    requires parts { seat.old.parts ≡ all_parts }
    ensures count { IfOk result (λ marks. length marks.items ≡ length cut.now.pages) }
    ensures claims { IfOk result (λ marks. AreClaims cut.now seat.old.claims marks.items) }
{
    let mut marks = Vec::new(alloc);
    'pages: for page in 0..cut.pages() {
        let word = seat.marks(table, page);
        marks.push(SlotSet::of_bits(word))?;
    }
    Ok(marks)
}
