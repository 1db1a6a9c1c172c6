//! The calls on the cut that write nothing.
ghost use Rattle.std.specs.Prelude.{◌≡◌, ◌≢◌, ℕ};
ghost use Rattle.disk_trait.specs.Causes.{Rose};
ghost use Rattle.disk_trait.specs.DiskFacts.{KeepsDisk};
ghost use Rattle.object_graph.specs.declared.calls.Call.TheVariants.{Copy, Sweep};
ghost use Rattle.object_graph.specs.declared.calls.Reply.TheVariants.{Done, Freed, Refused};
ghost use Rattle.cut_model.specs.Doomed.{AreDoomedOn};
ghost use Rattle.object_graph.specs.declared.calls.Refusal.TheVariants.{DiskFault};
ghost use Rattle.store_model.specs.Worlds.{World};
ghost use Rattle.store_model.specs.Steps.{next};
ghost use Rattle.cut_core.specs.Calls.{IsBuilt, IsOfCut, is_of_cut, TakesSteps, event_of};
ghost use Rattle.cut_core.specs.Given.{KeepsGiven};
ghost use Rattle.cut_core.specs.Holding.{Holds, AddsFrame, beside_of};
ghost use Rattle.cut_core.specs.Standing.{Stands, StepsWell, CrashesWell, Steps as StepsTo};
ghost use Rattle.cut_core.specs.Touched.{TouchesWell};

use crate::held::Held;
use crate::store::Store;
use disk_trait::Disk;
use object_graph::{Call, Refusal, Reply, Steps};
use std::alloc::Global;
use std::sync::ledger::Ledger;

/// One call on the cut, and its reply.
#[inline(never)]
pub fn call_cut<D: Disk, L: Ledger>(
    store: &Store<D>,
    held: &mut Held,
    alloc: Global,
    call: &Call,
    steps: &mut Steps<L>,
) -> Reply
    requires of { IsOfCut call.now }
    requires stands { (w : World) × Stands D.Disk store.now w × Holds held.old w }
    ensures steps { (w : World) → Stands D.Disk store.now w → Holds held.old w → StepsTo D.Disk store.now (event_of call.now result (D.fault_count store.now.disk)) w }
    ensures held { (w : World) → Stands D.Disk store.now w → Holds held.old w → Holds held.new (next w (event_of call.now result (D.fault_count store.now.disk))) }
    ensures fault { result ≢ Refused DiskFault }
    ensures given { KeepsGiven held.old held.new }
    ensures copied { (w : World) (page : ℕ) → Stands D.Disk store.now w → Holds held.old w → call.now ≡ Copy page → result ≡ Done → AddsFrame w page (beside_of held.old.cut) (beside_of held.new.cut) }
    ensures taken { TakesSteps call.now result steps.old steps.new }
{
    if let Some(faults) = store.broken {
        return Reply::Refused {
            why: Refusal::Broken { faults },
        };
    }
    match *call {
        Call::OpenCut => held.open(alloc, store.transactions.pages(), store.commits),
        Call::Copy { page } => held.copy(&store.transactions, store.commits, page, steps),
        Call::EndCut => held.end(),
        Call::DropCut => held.drop_cut(),
        _ => unreachable!(),
    }
}

/// Whether the call is one on the cut that writes nothing.
fn is_on_cut(call: &Call) -> bool
    ensures { result ≡ is_of_cut call.now }
{
    match *call {
        Call::OpenCut => true,
        Call::Copy { page: _ } => true,
        Call::EndCut => true,
        Call::DropCut => true,
        _ => false,
    }
}

/// One call, and its reply.
#[inline(always)]
pub fn answer<D: Disk, L: Ledger>(
    store: &mut Store<D>,
    held: &mut Held,
    alloc: Global,
    call: &Call,
    steps: &mut Steps<L>,
) -> Reply
    requires built { IsBuilt call.now }
    requires stands { (w : World) × Stands D.Disk store.old w × Holds held.old w }
    ensures steps { StepsWell D.Disk store.old held.old store.new (event_of call.now result (D.fault_count store.new.disk)) }
    ensures held { (w : World) → Stands D.Disk store.old w → Holds held.old w → Holds held.new (next w (event_of call.now result (D.fault_count store.new.disk))) }
    ensures any_moment { CrashesWell D.Disk store.old held.old store.new (event_of call.now result (D.fault_count store.new.disk)) }
    ensures fault { result ≡ Refused DiskFault → Rose (D.fault_count store.old.disk) (D.fault_count store.new.disk) }
    ensures calm { result ≢ Refused DiskFault → D.fault_count store.new.disk ≡ D.fault_count store.old.disk }
    ensures keeps { KeepsDisk D.Disk store.old.disk store.new.disk }
    ensures given { KeepsGiven held.old held.new }
    ensures copied { (w : World) (page : ℕ) → Stands D.Disk store.old w → Holds held.old w → call.now ≡ Copy page → result ≡ Done → AddsFrame w page (beside_of held.old.cut) (beside_of held.new.cut) }
    ensures freed { (page slots : ℕ) → call.now ≡ Sweep page → result ≡ Freed slots → AreDoomedOn (beside_of held.old.cut).starts (beside_of held.old.cut).pages page slots }
    ensures idle { (page : ℕ) → call.now ≡ Sweep page → result ≡ Freed 0 → store.new.disk ≡ store.old.disk }
    ensures taken { TakesSteps call.now result steps.old steps.new }
    ensures frames { TouchesWell store.old.transactions store.new.transactions call.now result }
{
    if is_on_cut(call) {
        return call_cut(store, held, alloc, call, steps);
    }
    store.call(held, call, steps)
}
