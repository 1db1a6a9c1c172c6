//! One event of the core: what it answers, and what the chronicle keeps of it.
ghost use Rattle.std.specs.Prelude.{◌≡◌, None, IfSome};
ghost use Rattle.object_graph.specs.declared.calls.Call.TheVariants.{Reopen};
ghost use Rattle.cut_core.specs.Calls.{IsBuilt, TakesSteps};
ghost use Rattle.cut_core.specs.Given.{HasGiven};
ghost use Rattle.store_desk.specs.Appended.{IsOf, IsTaken, IsClosingOf, IsMarkingOf};
ghost use Rattle.store_desk.specs.Events.{plain_note, is_reopening};
ghost use Rattle.store_desk.specs.Happenings.{Happened};

use crate::event::{Event, Note};
use crate::names::Reopening;
use cut_builder::{ClosedCut, MarkedCut};
use cut_core::Core;
use disk_trait::Disk;
use object_graph::{Call, Refusal, Reply, Steps};
use std::snapshot::Snapshot;
use std::sync::ledger::Ledger;
use told::Told;

/// A call that isn't a closing and gives no marks.
pub(crate) fn happen<D: Disk, L: Ledger>(
    core: &mut Core<D>,
    lane: u32,
    call: Call,
    steps: &mut Steps<L>,
) -> Event
    requires { IsTaken call }
    ensures of { IsOf lane call result.entry.reply result }
    ensures happened { Happened D.Disk core.old core.new result }
    ensures taken { TakesSteps call result.entry.reply steps.old steps.new }
{
    if is_reopening(&call) {
        return reopen(core, lane);
    }
    answer(core, lane, call, steps)
}

/// A call of the core but the reopening.
fn answer<D: Disk, L: Ledger>(
    core: &mut Core<D>,
    lane: u32,
    call: Call,
    steps: &mut Steps<L>,
) -> Event
    requires { IsBuilt call }
    ensures of { IsOf lane call result.entry.reply result }
    ensures happened { Happened D.Disk core.old core.new result }
    ensures taken { TakesSteps call result.entry.reply steps.old steps.new }
{
    let reply = core.call(copy_of(&call), steps);
    let note = plain_note(&reply, core.broken());
    Event::of(lane, &call, &reply, note)
}

/// The reopening.
fn reopen<D: Disk>(core: &mut Core<D>, lane: u32) -> Event
    ensures of { IsOf lane Reopen result.entry.reply result }
    ensures happened { Happened D.Disk core.old core.new result }
{
    let before = Snapshot::of(&*core);
    let reply = core.reopen();
    let note = if let Reply::Reopened { commits: _ } = reply {
        Note::Found {
            names: Told::by(&Reopening {
                before: &before,
                after: core,
                reply: &reply,
            }),
        }
    } else {
        plain_note(&reply, core.broken())
    };
    Event::of(lane, &Call::Reopen, &reply, note)
}

/// The closing of the cut, which leaves the core.
pub(crate) fn close<D: Disk>(core: &mut Core<D>, lane: u32) -> (Event, Result<ClosedCut, Refusal>)
    ensures closing { IsClosingOf lane result.1 result.0 }
    ensures happened { Happened D.Disk core.old core.new result.0 }
{
    let answer = core.close_cut();
    core.stands();
    let (reply, note) = match &answer {
        Ok(cut) => (
            Reply::Done,
            Note::Images {
                given: Snapshot::of(cut),
            },
        ),
        Err(why) => (Reply::Refused { why: *why }, Note::Nothing),
    };
    (Event::of(lane, &Call::Close, &reply, note), answer)
}

/// Marks of a cut, or none where marking found no memory.
pub(crate) fn give_marks<D: Disk>(
    core: &mut Core<D>,
    lane: u32,
    workers: u32,
    marked: Option<MarkedCut>,
) -> Event
    requires { IfSome marked (λ m. HasGiven core.old.world core.old.beside m.cut.number m.cut.pages) }
    ensures marking { IsMarkingOf lane workers marked result.entry.reply result }
    ensures happened { Happened D.Disk core.old core.new result }
{
    let Some(marked) = marked else {
        return refuse_marks(core, lane, workers);
    };
    let cut = Some(marked.number());
    let reply = match core.give_marks(marked) {
        Ok(()) => Reply::Done,
        Err((_marked, why)) => Reply::Refused { why },
    };
    core.stands();
    Event::of(lane, &Call::Mark { workers }, &reply, Note::Marks { cut })
}

/// Marking found no memory.
fn refuse_marks<D: Disk>(core: &mut Core<D>, lane: u32, workers: u32) -> Event
    ensures marking { IsMarkingOf lane workers None result.entry.reply result }
    ensures happened { Happened D.Disk core.old core.new result }
{
    let why = match core.may_mark() {
        Ok(_number) => Refusal::Memory,
        Err(why) => why,
    };
    core.stands();
    Event::of(
        lane,
        &Call::Mark { workers },
        &Reply::Refused { why },
        Note::Marks { cut: None },
    )
}

/// The note of a reply that gives nothing out.
fn plain_note(reply: &Reply, broken: Option<u64>) -> Note
    ensures { result ≡ plain_note reply.now broken }
{
    match *reply {
        Reply::Refused {
            why: Refusal::DiskFault,
        } => Note::Faults {
            count: broken.unwrap_or(0),
        },
        _ => Note::Nothing,
    }
}

/// Whether the call is the reopening.
fn is_reopening(call: &Call) -> bool
    ensures { result ≡ is_reopening call.now }
{
    match *call {
        Call::Reopen => true,
        _ => false,
    }
}

fn copy_of(call: &Call) -> Call
    ensures { result ≡ call.now }
{
    *call
}
