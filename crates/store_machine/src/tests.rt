//! A collection over a store in memory, call by call.
ghost use Rattle.std.specs.Prelude.{◌≡◌, ◌<◌, ℕ, List, IfOk, IfSome};
ghost use Rattle.cut_model.specs.CutPages.{CutPage};
ghost use Rattle.cut_core.specs.Given.{HasGiven};
ghost use Rattle.cut_core.specs.Starts.{IsJustOpened};

use crate::{Machine, collection_call};
use cut_builder::ClosedCut;
use cut_core::Core;
use disk_trait::{MemDisk, OpenGate};
use mark_pool::mark;
use object_graph::{Call, Memory, Refusal, Reply, SlotSet, Steps};
use recovery::make;
use std::alloc::Global;
use std::marker::Brand;
use std::process::Abort;
use std::sync::ledger::{Blank, Ledger};
use std::test::Fail;
use std::thread::Threads;

/// The bytes of a store of two pages.
const TWO_PAGES: u64 = 527_360;

/// A core over a fresh store of two pages.
fn fresh_core(alloc: Global) -> Result<Core<MemDisk>, Memory>
    ensures { IfOk result (λ core. IsJustOpened core.world) }
{
    let mut disk = MemDisk::new(alloc, TWO_PAGES, Vec::new(alloc))?;
    let Ok(()) = make(alloc, &mut disk, 2) else {
        return Err(Memory);
    };
    match Core::start(alloc, disk) {
        Ok(core) => Ok(core),
        Err((_, _)) => Err(Memory),
    }
}

/// A machine over it.
fn fresh(alloc: Global) -> Result<Machine<MemDisk>, Memory> {
    Ok(Machine::of(alloc, fresh_core(alloc)?))
}

#[test]
fn a_collection_has_its_calls_in_order(rt: HostRuntime) -> Result<(), Fail> {
    let calls = [
        Some(Call::OpenCut),
        Some(Call::Copy { page: 0 }),
        Some(Call::Copy { page: 1 }),
        Some(Call::Close),
        Some(Call::Mark { workers: 4 }),
        Some(Call::Sweep { page: 0 }),
        Some(Call::Sweep { page: 1 }),
        Some(Call::EndCut),
        None,
    ];
    let mut place: u64 = 0;
    for call in calls.iter() {
        assert!(rt; collection_call(2, 4, place) == *call);
        place = place.saturating_add(1);
    }
    Ok(())
}

/// The reply to a call of a collection, and the first page that it touched.
type Answer = (Reply, Option<u32>);

/// Whether each call of a collection by two workers is answered so, in order.
fn are_answered<T: Threads + Sync, L: Ledger>(
    threads: &T,
    machine: &mut Machine<MemDisk>,
    answers: &[Answer],
    blank: Blank,
) -> bool
    requires name { blank.name ≡ L.name }
    requires parts { blank.parts ≡ L.parts }
    requires some { 0 < blank.parts }
{
    let mut steps: Steps<L> = Steps::new(blank);
    let mut place: u64 = 0;
    for answer in answers {
        let Some(call) = collection_call(2, 2, place) else {
            return false;
        };
        if machine.answer(threads, call, &mut steps) != answer.0 || machine.touched(0) != answer.1 {
            return false;
        }
        place = place.saturating_add(1);
    }
    true
}

/// Commits an object on page 1 to which nothing refers.
fn leave_garbage<T: Threads + Sync, L: Ledger>(
    threads: &T,
    machine: &mut Machine<MemDisk>,
    blank: Blank,
) -> Reply
    requires name { blank.name ≡ L.name }
    requires parts { blank.parts ≡ L.parts }
    requires some { 0 < blank.parts }
{
    let mut steps: Steps<L> = Steps::new(blank);
    let _begun = machine.answer(threads, Call::Begin { txn: 1 }, &mut steps);
    let _made = machine.answer(threads, Call::New { txn: 1, page: 1 }, &mut steps);
    machine.answer(threads, Call::Commit { txn: 1 }, &mut steps)
}

/// The answers of a collection of two pages in which sweeps free these slots of page 1.
fn answers_of(slots: SlotSet, touched: Option<u32>) -> [Answer; 8] {
    let none = Reply::Freed {
        slots: SlotSet::empty(),
    };
    [
        (Reply::Cut { number: 1 }, None),
        (Reply::Done, None),
        (Reply::Done, None),
        (Reply::Done, None),
        (Reply::Done, None),
        (none, None),
        (Reply::Freed { slots }, touched),
        (Reply::Done, None),
    ]
}

#[test]
fn a_store_without_garbage_is_collected(rt: HostRuntime) -> Result<(), Fail> {
    let mut machine = fresh(rt.alloc())?;
    let answers = answers_of(SlotSet::empty(), None);
    assert!(rt; are_answered::<_, Brand>(&rt, &mut machine, &answers, Blank::new(1)));
    Ok(())
}

#[test]
fn a_sweep_that_frees_touches_its_page(rt: HostRuntime) -> Result<(), Fail> {
    let mut machine = fresh(rt.alloc())?;
    let committed = Reply::Committed { commits: 1 };
    assert!(rt; leave_garbage::<_, Brand>(&rt, &mut machine, Blank::new(1)) == committed);
    let answers = answers_of(SlotSet::empty().with(0), Some(1));
    assert!(rt; are_answered::<_, Brand>(&rt, &mut machine, &answers, Blank::new(1)));
    Ok(())
}

/// Opens a cut of two pages, copies them and closes it.
fn closed_cut<L: Ledger>(core: &mut Core<MemDisk>, steps: &mut Steps<L>) -> Option<ClosedCut>
    ensures gives { IfSome result (λ cut. HasGiven core.new.world core.new.beside cut.number cut.pages) }
    ensures given { (number : ℕ) (pages : List CutPage) → HasGiven core.old.world core.old.beside number pages → HasGiven core.new.world core.new.beside number pages }
{
    core.call(Call::OpenCut, steps);
    core.call(Call::Copy { page: 0 }, steps);
    core.call(Call::Copy { page: 1 }, steps);
    core.close_cut().ok()
}

/// Why the marks of a first cut aren't taken while a second one is closed.
fn late_marks<T: Threads + Sync, L: Ledger>(
    threads: &T,
    alloc: Global,
    core: &mut Core<MemDisk>,
    blank: Blank,
) -> Option<Refusal>
    requires name { blank.name ≡ L.name }
    requires parts { blank.parts ≡ L.parts }
    requires some { 0 < blank.parts }
{
    let mut steps: Steps<L> = Steps::new(blank);
    let first = closed_cut(core, &mut steps)?;
    let Ok(marked) = mark(threads, alloc, &OpenGate, first, 2) else {
        return None;
    };
    core.call(Call::DropCut, &mut steps);
    closed_cut(core, &mut steps)?;
    match core.give_marks(marked) {
        Ok(()) => None,
        Err((_, why)) => Some(why),
    }
}

#[test]
fn marks_of_an_earlier_cut_come_back(rt: HostRuntime) -> Result<(), Fail> {
    let mut core = fresh_core(rt.alloc())?;
    let why = late_marks::<_, Brand>(&rt, rt.alloc(), &mut core, Blank::new(1));
    assert!(rt; why == Some(Refusal::OtherCut { now: 2 }));
    Ok(())
}
