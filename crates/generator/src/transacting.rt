//! The transaction of a round.
ghost use Rattle.std.specs.Prelude.{◌≡◌, ◌==◌, ◌<◌, ◌∷◌, [], Some};
ghost use Rattle.object_graph.specs.Names.{root_name};
ghost use Rattle.generator.specs.Draws.{field_drawn, keep_drawn, page_drawn};
ghost use Rattle.generator.specs.Rounds.{kept_in, most_rounds, store_pages, writes_of};
ghost use Rattle.generator.specs.Between.{IsAlone, IsResting, learnt};
ghost use Rattle.generator.specs.Making.{BeginsRound, Fills, GoesOn, MadeNew, Transacts, commits_told, made_name};

use crate::asking::{Stop, ask, tell};
use disk_trait::Disk;
use object_graph::{Call, Name, OBJECT_FIELDS, ROOT, Reply, Steps};
use std::sync::ledger::Ledger;
use std::thread::Threads;
use store_machine::Machine;

/// The number of the one transaction.
const TXN: u32 = 1;

/// The page on which a round makes its object, for which this was drawn.
fn page_of(drawn: u64) -> u32
    ensures drawn { result ≡ page_drawn drawn }
    ensures bound { result < store_pages }
{
    ((drawn >> 33) % 16) as u32
}

/// The field of the root that it changes.
fn field_of(drawn: u64) -> u32
    ensures drawn { result ≡ field_drawn drawn }
    ensures bound { result < OBJECT_FIELDS }
{
    ((drawn >> 40) % OBJECT_FIELDS as u64) as u32
}

/// Whether the new object keeps what stood in that field.
fn keeps(drawn: u64) -> bool
    ensures { result ≡ (keep_drawn drawn == 1) }
{
    (drawn >> 50) % 2 == 1
}

/// Runs the transaction of round `round`, for which `drawn` was drawn. Answers whether the page was
/// full, and the number of commits.
pub fn transact<T: Threads + Sync, D: Disk, L: Ledger>(
    machine: &mut Machine<D>,
    threads: &T,
    drawn: u64,
    round: u64,
    steps: &mut Steps<L>,
) -> Result<(bool, u64), Stop>
    requires resting { IsResting machine.old.world }
    requires number { machine.old.world.commits ≡ round }
    requires few { round < most_rounds }
    ensures { Transacts ⟦<D as Disk>⟧ machine.old machine.new drawn round result }
{
    let old = match begin(machine, threads, field_of(drawn), steps) {
        Ok(old) => old,
        Err(stop) => return Err(stop),
    };
    let full = fill(machine, threads, drawn, round, &old, steps);
    match ask(machine, threads, Call::Commit { txn: TXN }, steps) {
        Ok(reply) => Ok((full, number_committed(reply))),
        Err(stop) => Err(stop),
    }
}

/// Begins the transaction. Answers what stands in this field of the root.
fn begin<T: Threads + Sync, D: Disk, L: Ledger>(
    machine: &mut Machine<D>,
    threads: &T,
    field: u32,
    steps: &mut Steps<L>,
) -> Result<Option<Name>, Stop>
    requires resting { IsResting machine.old.world }
    requires field { field < OBJECT_FIELDS }
    ensures { BeginsRound ⟦<D as Disk>⟧ machine.old machine.new field result }
{
    if let Err(stop) = ask(machine, threads, Call::Begin { txn: TXN }, steps) {
        return Err(stop);
    }
    let call = Call::Get {
        txn: TXN,
        name: ROOT,
        field,
    };
    match tell(machine, threads, call, steps) {
        Reply::Ref { target } => Ok(target),
        _ => unreachable!(),
    }
}

/// Makes the object of the round and writes it, or clears the root's field where the page is full.
/// Answers whether it was full.
fn fill<T: Threads + Sync, D: Disk, L: Ledger>(
    machine: &mut Machine<D>,
    threads: &T,
    drawn: u64,
    round: u64,
    old: &Option<Name>,
    steps: &mut Steps<L>,
) -> bool
    requires { IsAlone (learnt old.now (root_name ∷ [])) 1 machine.old.world }
    ensures { Fills ⟦<D as Disk>⟧ machine.old machine.new drawn round old.now result }
{
    match new_object(machine, threads, page_of(drawn), old, steps) {
        None => {
            let clear = Call::Set {
                txn: TXN,
                name: ROOT,
                field: field_of(drawn),
                target: None,
            };
            tell(machine, threads, clear, steps);
            true
        }
        Some(name) => {
            write(machine, threads, drawn, round, old, &name, steps);
            false
        }
    }
}

/// Makes an object on the page, unless that is full.
fn new_object<T: Threads + Sync, D: Disk, L: Ledger>(
    machine: &mut Machine<D>,
    threads: &T,
    page: u32,
    old: &Option<Name>,
    steps: &mut Steps<L>,
) -> Option<Name>
    requires alone { IsAlone (learnt old.now (root_name ∷ [])) 1 machine.old.world }
    requires page { page < store_pages }
    ensures { MadeNew ⟦<D as Disk>⟧ machine.old machine.new page result }
{
    let reply = machine.answer(threads, Call::New { txn: TXN, page }, steps);
    name_made(reply)
}

/// The number of commits that a reply tells.
fn number_committed(reply: Reply) -> u64
    ensures { result ≡ commits_told reply }
{
    match reply {
        Reply::Committed { commits } => commits,
        _ => 0,
    }
}

/// The name that a reply says was made.
fn name_made(reply: Reply) -> Option<Name>
    ensures { result ≡ made_name reply }
{
    match reply {
        Reply::Made { name } => Some(name),
        _ => None,
    }
}

/// Writes the round's number and perhaps the old name into the new object, and the new name into the
/// root.
fn write<T: Threads + Sync, D: Disk, L: Ledger>(
    machine: &mut Machine<D>,
    threads: &T,
    drawn: u64,
    round: u64,
    old: &Option<Name>,
    name: &Name,
    steps: &mut Steps<L>,
)
    requires { IsAlone (name.now ∷ learnt old.now (root_name ∷ [])) 2 machine.old.world }
    ensures { GoesOn ⟦<D as Disk>⟧ machine.old machine.new (writes_of drawn round old.now (Some name.now)) [] 5 }
{
    let number = Call::Put {
        txn: TXN,
        name: *name,
        value: round,
    };
    tell(machine, threads, number, steps);
    keep(machine, threads, drawn, old, name, steps);
    let link = Call::Set {
        txn: TXN,
        name: ROOT,
        field: field_of(drawn),
        target: Some(*name),
    };
    tell(machine, threads, link, steps);
}

/// Writes the old name into the new object, where that is drawn.
fn keep<T: Threads + Sync, D: Disk, L: Ledger>(
    machine: &mut Machine<D>,
    threads: &T,
    drawn: u64,
    old: &Option<Name>,
    name: &Name,
    steps: &mut Steps<L>,
)
    requires { IsAlone (name.now ∷ learnt old.now (root_name ∷ [])) 3 machine.old.world }
    ensures { GoesOn ⟦<D as Disk>⟧ machine.old machine.new (kept_in name.now drawn old.now) (name.now ∷ learnt old.now (root_name ∷ [])) 4 }
{
    machine.stands();
    if let Some(target) = old {
        if keeps(drawn) {
            let call = Call::Set {
                txn: TXN,
                name: *name,
                field: 0,
                target: Some(*target),
            };
            tell(machine, threads, call, steps);
        }
    }
}
