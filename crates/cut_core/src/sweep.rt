//! The sweep of a page.
ghost use Rattle.std.specs.Prelude.{◌≡◌, ◌≢◌, ◌<◌, ◌≤◌, ◌+◌, ℕ, true, Some, None, Err, IfOk, OnOk, length, IsTrue};
ghost use Rattle.object_graph.specs.Slots.{has_slot};
ghost use Rattle.object_graph.specs.declared.calls.Call.TheVariants.{Sweep};
ghost use Rattle.object_graph.specs.declared.calls.Refusal.{Refusal as AnyRefusal};
ghost use Rattle.object_graph.specs.declared.calls.Refusal.TheVariants.{DiskFault};
ghost use Rattle.object_graph.specs.declared.calls.Reply.TheVariants.{Refused, Freed as FreedOf};
ghost use Rattle.disk_trait.specs.Causes.{Rose};
ghost use Rattle.disk_trait.specs.DiskFacts.{KeepsDisk};
ghost use Rattle.page_image.specs.Pages.{slot_at};
ghost use Rattle.page_buffer.specs.Frames.{frame_at, freed_page};
ghost use Rattle.store_model.specs.Causes.{first_refusal};
ghost use Rattle.store_model.specs.Replies.{AllowsReply};
ghost use Rattle.store_model.specs.Steps.{next, swept};
ghost use Rattle.store_model.specs.Worlds.{World, nothing};
ghost use Rattle.image_model.specs.Records.{sweep_record};
ghost use Rattle.cut_model.specs.Doomed.{AreDoomedOn};
ghost use Rattle.transactions.specs.Standing.{IsReadyForSome};
ghost use Rattle.cut_core.specs.Calls.{TakesSteps, event_of};
ghost use Rattle.cut_core.specs.Given.{KeepsGiven};
ghost use Rattle.cut_core.specs.Holding.{Holds, beside_of, beside_stage};
ghost use Rattle.cut_core.specs.Standing.{Stands, StepsWell, CrashesWell};
ghost use Rattle.cut_core.specs.Sweeping.{sweep_refusal};
ghost use Rattle.cut_core.specs.Touched.{TouchesWell};

use crate::commit::write_record;
use crate::held::{Held, HeldCut, Stage};
use crate::store::Store;
use disk_trait::{Disk, Failed};
use object_graph::{Refusal, Reply, SlotSet, Steps};
use redo_journal::{Journal, Kind};
use std::sync::ledger::Ledger;
use sweeper::doomed;
use transactions::Transactions;

impl HeldCut {
    /// The doomed slots of a page that isn't swept yet.
    pub fn doomed(&self, page: u32) -> Result<SlotSet, Refusal>
        requires { (w : World) × (last : ℕ) × Holds (record { cut = Some self.now; last_cut = last }) w }
        ensures may { OnOk result (sweep_refusal self.now page ≡ None) }
        ensures why { (why : AnyRefusal) → result ≡ Err why → sweep_refusal self.now page ≡ Some why }
        ensures exact { IfOk result (λ slots. AreDoomedOn (beside_stage self.now.stage).starts (beside_stage self.now.stage).pages page slots) }
        ensures other { (why : AnyRefusal) → result ≡ Err why → why ≢ DiskFault }
    {
        let Stage::Sweeping { marked } = &self.stage else {
            return Err(Refusal::WrongPhase {
                now: self.stage.phase(),
            });
        };
        if page as usize >= self.swept.len() {
            return Err(Refusal::NoPage);
        }
        if self.swept[page as usize] {
            return Err(Refusal::AlreadySwept { page });
        }
        Ok(doomed(marked, page))
    }
}

impl Held {
    /// The doomed slots of a page that may be swept.
    pub fn doomed(&self, page: u32) -> Result<SlotSet, Refusal>
        requires { (w : World) × Holds self.now w }
        ensures may { OnOk result ((w : World) → Holds self.now w → w.broken ≡ None → first_refusal w (Sweep page) nothing ≡ None) }
        ensures refused { (why : AnyRefusal) → result ≡ Err why → (w : World) → Holds self.now w → w.broken ≡ None → first_refusal w (Sweep page) nothing ≡ Some why }
        ensures exact { IfOk result (λ slots. AreDoomedOn (beside_of self.now.cut).starts (beside_of self.now.cut).pages page slots) }
        ensures other { (why : AnyRefusal) → result ≡ Err why → why ≢ DiskFault }
    {
        match &self.cut {
            Some(held) => held.doomed(page),
            None => Err(Refusal::NoCut),
        }
    }

    /// Notes that a page is swept.
    pub fn note_swept(&mut self, page: u32)
        requires { (w : World) × (slots : ℕ) × Holds self.old w × AllowsReply w (Sweep page) nothing (FreedOf slots) }
        ensures well { (w : World) (slots : ℕ) → Holds self.old w → AllowsReply w (Sweep page) nothing (FreedOf slots) → Holds self.new (swept w page slots) }
        ensures given { KeepsGiven self.old self.new }
    {
        if let Some(held) = &mut self.cut {
            held.swept[page as usize] = true;
        }
    }
}

/// Stages the record of a sweep: the committed image of the page without the objects in these slots.
fn stage_sweep<L: Ledger>(
    transactions: &Transactions,
    journal: &mut Journal,
    page: u32,
    slots: SlotSet,
    steps: &mut Steps<L>,
)
    requires ready { IsReadyForSome transactions.now }
    requires page { page < length transactions.now.frames }
    requires pages { journal.old.pages ≡ length transactions.now.frames }
    requires used { (slot : ℕ) → IsTrue (has_slot slots slot) → (slot_at (frame_at transactions.now.frames page).before slot).in_use ≡ true }
    ensures staged { journal.new ≡ record journal.old { staged = Some (sweep_record (freed_page slots (frame_at transactions.now.frames page).before)) } }
    ensures step { steps.new ≡ steps.old + 1 }
{
    let mut image = transactions.frame(page, steps).before;
    image.free_slots(slots);
    journal.stage(Kind::Sweep);
    journal.stage_page(&image);
}

impl<D: Disk> Store<D> {
    /// Sweeps a page of the cut: its doomed objects are freed. Where none is doomed the disk isn't
    /// called.
    #[inline(never)]
    pub fn sweep<L: Ledger>(&mut self, held: &mut Held, page: u32, steps: &mut Steps<L>) -> Reply
        requires sound { self.old.broken ≡ None }
        requires stands { (w : World) × Stands D.Disk self.old w × Holds held.old w }
        ensures held { (w : World) → Stands D.Disk self.old w → Holds held.old w → Holds held.new (next w (event_of (Sweep page) result (D.fault_count self.new.disk))) }
        ensures given { KeepsGiven held.old held.new }
        ensures steps { StepsWell D.Disk self.old held.old self.new (event_of (Sweep page) result (D.fault_count self.new.disk)) }
        ensures any_moment { CrashesWell D.Disk self.old held.old self.new (event_of (Sweep page) result (D.fault_count self.new.disk)) }
        ensures fault { result ≡ Refused DiskFault → Rose (D.fault_count self.old.disk) (D.fault_count self.new.disk) }
        ensures calm { result ≢ Refused DiskFault → D.fault_count self.new.disk ≡ D.fault_count self.old.disk }
        ensures keeps { KeepsDisk D.Disk self.old.disk self.new.disk }
        ensures freed { (slots : ℕ) → result ≡ FreedOf slots → AreDoomedOn (beside_of held.old.cut).starts (beside_of held.old.cut).pages page slots }
        ensures idle { result ≡ FreedOf 0 → self.new.disk ≡ self.old.disk }
        ensures taken { TakesSteps (Sweep page) result steps.old steps.new }
        ensures frames { TouchesWell self.old.transactions self.new.transactions (Sweep page) result }
    {
        let slots = match held.doomed(page) {
            Ok(slots) => slots,
            Err(why) => return Reply::Refused { why },
        };
        if slots.is_empty() {
            held.note_swept(page);
            return Reply::Freed { slots };
        }
        self.free(held, page, slots, steps)
    }

    /// Frees the doomed slots of a page: a record of its committed image without them is written to the
    /// journal, and then they are freed in both images of its frame.
    fn free<L: Ledger>(
        &mut self,
        held: &mut Held,
        page: u32,
        slots: SlotSet,
        steps: &mut Steps<L>,
    ) -> Reply
        requires sound { self.old.broken ≡ None }
        requires stands { (w : World) × Stands D.Disk self.old w × Holds held.old w }
        requires may { (w : World) → Holds held.old w → w.broken ≡ None → first_refusal w (Sweep page) nothing ≡ None }
        requires doomed { AreDoomedOn (beside_of held.old.cut).starts (beside_of held.old.cut).pages page slots }
        requires some { slots ≢ 0 }
        ensures held { (w : World) → Stands D.Disk self.old w → Holds held.old w → Holds held.new (next w (event_of (Sweep page) result (D.fault_count self.new.disk))) }
        ensures given { KeepsGiven held.old held.new }
        ensures steps { StepsWell D.Disk self.old held.old self.new (event_of (Sweep page) result (D.fault_count self.new.disk)) }
        ensures any_moment { CrashesWell D.Disk self.old held.old self.new (event_of (Sweep page) result (D.fault_count self.new.disk)) }
        ensures fault { result ≡ Refused DiskFault → Rose (D.fault_count self.old.disk) (D.fault_count self.new.disk) }
        ensures calm { result ≢ Refused DiskFault → D.fault_count self.new.disk ≡ D.fault_count self.old.disk }
        ensures keeps { KeepsDisk D.Disk self.old.disk self.new.disk }
        ensures freed { (all : ℕ) → result ≡ FreedOf all → all ≡ slots }
        ensures taken { TakesSteps (Sweep page) result steps.old steps.new }
        ensures frames { TouchesWell self.old.transactions self.new.transactions (Sweep page) result }
    {
        stage_sweep(&self.transactions, &mut self.journal, page, slots, steps);
        match write_record(&mut self.disk, &mut self.journal, self.commits) {
            Ok(()) => {
                self.transactions.free(page, slots, steps);
                held.note_swept(page);
                Reply::Freed { slots }
            }
            Err(Failed) => {
                self.broken = Some(self.disk.faults());
                Reply::Refused {
                    why: Refusal::DiskFault,
                }
            }
        }
    }
}
