//! Marking a cut.
ghost use Rattle.std.specs.Prelude.{◌≡◌, ◌<◌, ◌≤◌, ◌↔◌, true, false, length, IfErr, IfOk, OnOk};
ghost use Rattle.cut_model.specs.Doomed.{AreMarks};
ghost use Rattle.cut_builder.specs.CutParts.{cut_starts, marks_of, HasExactMarks};
ghost use Rattle.mark_pool.specs.Jobs.{AreWorkers};
ghost use Rattle.mark_pool.specs.Seats.{first_seat};
ghost use Rattle.mark_pool.specs.Walks.{AreClosedOn, IsWholeSeat};
ghost use Rattle.mark_pool.specs.Unscanned.{unscanned};

use crate::listing::{list_all, read_marks};
use crate::place::Place;
use crate::round::{ROOM, round};
use crate::scan::{is_in_use, visit};
use crate::table::{MarkSeat, MarkTable};
use crate::work::MOST_QUOTA;
use cut_builder::{ClosedCut, MarkedCut};
use disk_trait::Gate;
use object_graph::{Memory, Name, SlotSet};
use std::alloc::Global;
use std::thread::Threads;

/// Why a cut wasn't marked.
#[derive(Clone, Copy, Debug, PartialEq, Eq)]
pub enum MarkFault {
    BadWorkers,
    Memory,
}

/// How many places each of several workers takes at most in the first round. The number grows from round
/// to round, so that a round which begins with one place is soon spread, and a chain needs few rounds.
const FIRST_QUOTA: u64 = 256;

/// How many times as much a quota is as that of the round before.
const GROWTH: u64 = 8;

/// Marks the root where it is in use.
fn claim_root(table: &MarkTable, cut: &ClosedCut, seat: &mut MarkSeat)
    requires cut { table.now.cut ≡ cut.now }
    requires first { seat.old ≡ first_seat table.now }
    ensures { IsWholeSeat table.now seat.new }
{
    if is_in_use(cut, &Name::root()) {
        seat.claim(table, 0, 0);
    }
}

/// Lists what is marked and not scanned, scans the first listed place, and has the workers mark from the
/// others. Says whether there was a place.
fn next_round<R: Threads + Sync, G: Gate>(
    threads: &R,
    alloc: Global,
    gate: &G,
    table: &MarkTable,
    cut: &ClosedCut,
    seat: &mut MarkSeat,
    list: &mut Vec<Place>,
    workers: u32,
    quota: u64,
) -> Result<bool, Memory>
    requires cut { table.now.cut ≡ cut.now }
    requires whole { IsWholeSeat table.now seat.old }
    requires workers { AreWorkers workers }
    requires quota { quota ≤ MOST_QUOTA }
    ensures whole { OnOk result (IsWholeSeat table.now seat.new) }
    ensures fewer { IfOk result (λ again. again ≡ true → unscanned (length cut.now.pages) seat.new.scans < unscanned (length cut.now.pages) seat.old.scans) }
    ensures closed { IfOk result (λ again. again ≡ false → AreClosedOn cut.now seat.new.claims (length cut.now.pages)) }
{
    cut.is_closed();
    list.clear();
    let Some(first) = list_all(table, cut, seat, list)? else {
        return Ok(false);
    };
    visit(table, cut, seat, list, &first);
    round(threads, alloc, gate, table, cut, seat, list, workers, quota)?;
    Ok(true)
}

/// The quota of the first round. One worker has nobody to share with.
fn first_quota(workers: u32) -> u64
    ensures { result ≤ MOST_QUOTA }
{
    if workers == 1 {
        MOST_QUOTA
    } else {
        FIRST_QUOTA
    }
}

/// The quota of the round after one with this quota.
fn next_quota(quota: u64) -> u64
    requires { quota ≤ MOST_QUOTA }
    ensures { result ≤ MOST_QUOTA }
{
    if quota < MOST_QUOTA / GROWTH {
        GROWTH * quota
    } else {
        MOST_QUOTA
    }
}

/// Marks in rounds, until nothing that is marked is left to scan. Each round scans a place more.
fn mark_all<R: Threads + Sync, G: Gate>(
    threads: &R,
    alloc: Global,
    gate: &G,
    table: &MarkTable,
    cut: &ClosedCut,
    seat: &mut MarkSeat,
    workers: u32,
) -> Result<Vec<SlotSet>, Memory>
    requires cut { table.now.cut ≡ cut.now }
    requires whole { IsWholeSeat table.now seat.old }
    requires workers { AreWorkers workers }
    ensures count { IfOk result (λ marks. length marks.items ≡ length cut.now.pages) }
    ensures exact { IfOk result (λ marks. AreMarks (cut_starts cut.now) cut.now.pages (marks_of marks.items)) }
{
    let mut list = Vec::with_capacity(alloc, ROOM)?;
    let mut quota = first_quota(workers);
    'rounds: loop {
        let again = next_round(
            threads, alloc, gate, table, cut, seat, &mut list, workers, quota,
        )?;
        if !again {
            return read_marks(alloc, table, cut, seat);
        }
        quota = next_quota(quota);
    }
}

/// The marked slots of each page of a cut.
fn find_marks<R: Threads + Sync, G: Gate>(
    threads: &R,
    alloc: Global,
    gate: &G,
    cut: &ClosedCut,
    workers: u32,
) -> Result<Vec<SlotSet>, Memory>
    requires { AreWorkers workers }
    ensures count { IfOk result (λ marks. length marks.items ≡ length cut.now.pages) }
    ensures exact { IfOk result (λ marks. AreMarks (cut_starts cut.now) cut.now.pages (marks_of marks.items)) }
{
    let (table, mut seat) = MarkTable::new(alloc, cut)?;
    claim_root(&table, cut, &mut seat);
    mark_all(threads, alloc, gate, &table, cut, &mut seat, workers)
}

/// Marks a closed cut by 1 to 16 workers. A worker passes the gate, with its number from 1, at turn 1
/// as a round starts, and at turn n + 1 before it takes its n-th place in that round. After a fault
/// the cut comes back.
pub fn mark<R: Threads + Sync, G: Gate>(
    threads: &R,
    alloc: Global,
    gate: &G,
    cut: ClosedCut,
    workers: u32,
) -> Result<MarkedCut, (ClosedCut, MarkFault)>
    ensures cut { IfOk result (λ marked. marked.cut ≡ cut) }
    ensures exact { IfOk result HasExactMarks }
    ensures workers { IfOk result (λ _. AreWorkers workers) }
    ensures back { IfErr result (λ e. e.0 ≡ cut) }
    ensures fault { IfErr result (λ e. (e.1 ≡ MarkFault.BadWorkers) ↔ (¬ AreWorkers workers)) }
{
    if workers < 1 || 16 < workers {
        return Err((cut, MarkFault::BadWorkers));
    }
    match find_marks(threads, alloc, gate, &cut, workers) {
        Ok(marks) => Ok(cut.with_marks(marks)),
        Err(Memory) => Err((cut, MarkFault::Memory)),
    }
}
