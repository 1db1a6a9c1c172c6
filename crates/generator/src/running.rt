//! A run, round by round.
ghost use Rattle.std.specs.Prelude.{◌≡◌, ◌≢◌, ◌≤◌, ◌<◌, [], Err, vec_capacity};
ghost use Rattle.disk_trait.specs.Causes.{Rose};
ghost use Rattle.generator.specs.Rounds.{most_rounds};
ghost use Rattle.generator.specs.Between.{IsResting};
ghost use Rattle.generator.specs.Making.{Generates, IsFew, MakesRound, Runs};

use crate::asking::Stop;
use crate::collection::collect;
use crate::draws::Draws;
use crate::summary::{SUMMARY_ROOM, Tally};
use crate::transacting::transact;
use disk_trait::Disk;
use object_graph::Steps;
use std::sync::ledger::Ledger;
use std::thread::Threads;
use store_machine::Machine;

/// How many rounds a run has at most.
pub const MOST_ROUNDS: u64 = 65_536;

/// After so many rounds a run collects.
const ROUNDS_BETWEEN: u64 = 32;

/// Makes `count` rounds from the number `from` on a store that was just made, and prints the line of
/// what it counted (FORMATS.md, "The generator"). Where it stops before their end, nothing is printed.
pub fn generate<T: Threads + Sync, D: Disk, L: Ledger>(
    machine: &mut Machine<D>,
    threads: &T,
    from: u64,
    count: u64,
    line: &mut Vec<u8>,
    steps: &mut Steps<L>,
) -> Result<(), Stop>
    requires resting { IsResting machine.old.world }
    requires fresh { machine.old.world.commits ≡ 0 }
    requires few { count ≤ most_rounds }
    requires empty { line.old.items ≡ [] }
    requires room { SUMMARY_ROOM ≤ vec_capacity line.old }
    ensures generated { Generates ⟦<D as Disk>⟧ machine.old machine.new from count line.new.items result }
    ensures fault { result ≡ Err Stop.DiskFault → Rose (D.fault_count machine.old.disk) (D.fault_count machine.new.disk) }
    ensures calm { result ≢ Err Stop.DiskFault → D.fault_count machine.new.disk ≡ D.fault_count machine.old.disk }
{
    match run(machine, threads, from, count, steps) {
        Ok(tally) => {
            tally.print(line);
            Ok(())
        }
        Err(stop) => Err(stop),
    }
}

/// Makes the rounds. Answers what was counted.
fn run<T: Threads + Sync, D: Disk, L: Ledger>(
    machine: &mut Machine<D>,
    threads: &T,
    from: u64,
    count: u64,
    steps: &mut Steps<L>,
) -> Result<Tally, Stop>
    requires resting { IsResting machine.old.world }
    requires fresh { machine.old.world.commits ≡ 0 }
    requires few { count ≤ most_rounds }
    ensures { Runs ⟦<D as Disk>⟧ machine.old machine.new from count result }
{
    machine.stands();
    let mut draws = Draws::starting(from);
    let mut tally = Tally::none();
    'rounds: for round in 0..count {
        let drawn = draws.draw();
        match run_round(machine, threads, drawn, round, &mut tally, steps) {
            Ok(()) => {}
            Err(stop) => return Err(stop),
        }
    }
    Ok(tally)
}

/// Makes round `round`, for which `drawn` was drawn, and adds what it counts.
fn run_round<T: Threads + Sync, D: Disk, L: Ledger>(
    machine: &mut Machine<D>,
    threads: &T,
    drawn: u64,
    round: u64,
    tally: &mut Tally,
    steps: &mut Steps<L>,
) -> Result<(), Stop>
    requires resting { IsResting machine.old.world }
    requires number { machine.old.world.commits ≡ round }
    requires few { round < most_rounds }
    requires counted { tally.old.rounds ≡ round }
    requires room { IsFew tally.old round }
    ensures { MakesRound ⟦<D as Disk>⟧ machine.old machine.new drawn round tally.old tally.new result }
{
    let (full, commits) = match transact(machine, threads, drawn, round, steps) {
        Ok(end) => end,
        Err(stop) => return Err(stop),
    };
    tally.rounds += 1;
    tally.commits = commits;
    tally.full += u64::from(full);
    if (round + 1) % ROUNDS_BETWEEN != 0 {
        return Ok(());
    }
    match collect(machine, threads, steps) {
        Ok(freed) => {
            tally.freed += freed;
            tally.ended += 1;
            Ok(())
        }
        Err(stop) => Err(stop),
    }
}
