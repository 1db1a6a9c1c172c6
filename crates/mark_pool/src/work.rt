//! What one worker does in a round.
ghost use Rattle.std.specs.Prelude.{◌≡◌, ◌<◌, ◌≤◌, length};
ghost use Rattle.std.specs.List.{All};
ghost use Rattle.cut_builder.specs.CutParts.{HasOneNameEach};
ghost use Rattle.mark_pool.specs.Seats.{IsSeatOf};
ghost use Rattle.mark_pool.specs.Walks.{IsListed, Works};

use crate::place::Place;
use crate::scan::visit;
use crate::table::{MarkSeat, MarkTable};
use cut_builder::ClosedCut;
use disk_trait::Gate;
use object_graph::{MOST_PAGES, MOST_SLOTS};

/// What a worker is given: its number, its seat, the places that it is to scan, and its quota.
#[derive(Drop)]
pub(crate) struct Job {
    pub(crate) who: u32,
    pub(crate) seat: MarkSeat,
    pub(crate) places: Vec<Place>,
    /// How many places it takes at most.
    pub(crate) quota: u64,
}

/// The most that a quota is: no cut has as many places.
pub(crate) const MOST_QUOTA: u64 = MOST_PAGES as u64 * MOST_SLOTS as u64;

/// Scans the places of a job, and those that it marks itself meanwhile, as far as its quota goes and its
/// list has room.
/// It passes the gate as it starts, and before it takes its n-th place with turn n + 1.
pub(crate) fn work<G: Gate>(gate: &G, table: &MarkTable, cut: &ClosedCut, job: Job) -> MarkSeat
    requires cut { table.now.cut ≡ cut.now }
    requires own { IsSeatOf table.now job.seat }
    requires quota { job.quota ≤ MOST_QUOTA }
    requires places { All (IsListed cut.now) job.places.items }
    ensures { Works job.seat result }
{
    let Job {
        who,
        mut seat,
        mut places,
        quota,
    } = job;
    cut.is_closed();
    gate.pass(who, 1);
    'places: for count in 0..quota {
        let Some(at) = places.pop() else { break };
        gate.pass(who, count + 2);
        visit(table, cut, &mut seat, &mut places, &at);
    }
    seat
}
