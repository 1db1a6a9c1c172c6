//! A round: the places that are marked and not scanned, parted among the workers.
ghost use Rattle.std.specs.Prelude.{◌≡◌, ℕ, ◌+◌, ◌<◌, ◌≤◌, length, IfOk, OnOk, vec_len};
ghost use Rattle.std.specs.List.{All};
ghost use Rattle.mark_pool.specs.Marks.{all_parts, times};
ghost use Rattle.mark_pool.specs.Seats.{IsSeatOf, less_one_part};
ghost use Rattle.mark_pool.specs.Jobs.{HasMore, HasSame, IsBack, IsReadyJob};
ghost use Rattle.mark_pool.specs.Walks.{IsListed, IsWholeSeat};

use crate::place::Place;
use crate::table::{MarkSeat, MarkTable};
use crate::work::{Job, MOST_QUOTA, work};
use cut_builder::ClosedCut;
use disk_trait::Gate;
use object_graph::{MOST_PAGES, Memory};
use std::alloc::Global;
use std::thread;
use std::thread::Threads;

/// The room of a list for places that are marked meanwhile. What finds none waits for the next round.
pub(crate) const ROOM: usize = MOST_PAGES as usize;

/// The job of one worker, with these places.
fn job_for(
    alloc: Global,
    table: &MarkTable,
    cut: &ClosedCut,
    seat: &mut MarkSeat,
    who: u32,
    piece: &[Place],
    quota: u64,
) -> Result<Job, Memory>
    requires own { IsSeatOf table.now seat.old }
    requires parts { 2 ≤ seat.old.parts }
    requires quota { quota ≤ MOST_QUOTA }
    requires listed { All (IsListed cut.now) piece.now }
    ensures kept { OnOk result (seat.new ≡ less_one_part seat.old) }
    ensures ready { IfOk result (IsReadyJob table.now cut.now) }
{
    let mut places = Vec::with_capacity(alloc, piece.len() + ROOM)?;
    places.extend_from_slice(piece)?;
    let seat = seat.split(table)?;
    Ok(Job {
        who,
        seat,
        places,
        quota,
    })
}

/// A job for each worker: the places are parted as evenly as they go.
fn deal(
    alloc: Global,
    table: &MarkTable,
    cut: &ClosedCut,
    seat: &mut MarkSeat,
    list: &[Place],
    workers: u32,
    quota: u64,
) -> Result<Vec<Job>, Memory>
    requires own { IsSeatOf table.now seat.old }
    requires quota { quota ≤ MOST_QUOTA }
    requires parts { workers < seat.old.parts }
    requires listed { All (IsListed cut.now) list.now }
    ensures own { OnOk result (IsSeatOf table.now seat.new) }
    ensures same { OnOk result (HasSame seat.old seat.new) }
    ensures parts { OnOk result (seat.new.parts + workers ≡ seat.old.parts) }
    ensures count { IfOk result (λ jobs. length jobs.items ≡ workers) }
    ensures ready { IfOk result (λ jobs. All (IsReadyJob table.now cut.now) jobs.items) }
{
    let mut jobs = Vec::new(alloc);
    let mut rest = list;
    'jobs: for who in 0..workers {
        let size = rest.len() / (workers - who) as usize;
        let (piece, later) = rest.split_at(size);
        rest = later;
        jobs.push(job_for(alloc, table, cut, seat, who + 1, piece, quota)?)?;
    }
    Ok(jobs)
}

/// Joins the seats of all workers again.
fn join_all(table: &MarkTable, seat: &mut MarkSeat, mut backs: Vec<MarkSeat>)
    requires own { IsSeatOf table.now seat.old }
    requires backs { All (IsBack table.now) backs.items }
    ensures own { IsSeatOf table.now seat.new }
    ensures parts { seat.new.parts ≡ seat.old.parts + vec_len backs }
    ensures more { HasMore seat.old seat.new }
{
    'backs: while let Some(back) = backs.pop() {
        seat.join(table, back);
    }
}

/// Marks from the places of a list: each worker in a thread of its own where one can be made.
pub(crate) fn round<R: Threads + Sync, G: Gate>(
    threads: &R,
    alloc: Global,
    gate: &G,
    table: &MarkTable,
    cut: &ClosedCut,
    seat: &mut MarkSeat,
    list: &[Place],
    workers: u32,
    quota: u64,
) -> Result<(), Memory>
    requires cut { table.now.cut ≡ cut.now }
    requires whole { IsWholeSeat table.now seat.old }
    requires workers { workers ≤ 16 }
    requires quota { quota ≤ MOST_QUOTA }
    requires listed { All (IsListed cut.now) list.now }
    ensures whole { OnOk result (IsWholeSeat table.now seat.new) }
    ensures more { OnOk result (HasMore seat.old seat.new) }
{
    let jobs = deal(alloc, table, cut, seat, list, workers, quota)?;
    let backs = thread::map_vec(
        threads,
        jobs,
        &|job: Job| -> MarkSeat
            requires { (table.now.cut ≡ cut.now) × IsReadyJob table.now cut.now job }
            ensures { IsBack table.entry.now result }
        { work(gate, table, cut, job) },
    )?;
    join_all(table, seat, backs);
    Ok(())
}
