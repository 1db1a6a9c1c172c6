//! The closing of a cut, and its marks.
ghost use Rattle.std.specs.Prelude.{◌≡◌, ◌≢◌, ℕ, Option, Some, None, Err, IfOk, IfErr, OnOk, IfSome, IsSomeAnd};
ghost use Rattle.object_graph.specs.declared.calls.Call.TheVariants.{Close, Mark};
ghost use Rattle.object_graph.specs.declared.calls.Refusal.{Refusal as AnyRefusal};
ghost use Rattle.object_graph.specs.declared.calls.Refusal.TheVariants.{DiskFault, Memory as NoMemory};
ghost use Rattle.object_graph.specs.declared.calls.Reply.TheVariants.{Refused};
ghost use Rattle.object_graph.specs.declared.calls.Phase.TheVariants.{Closed as ClosedPhase};
ghost use Rattle.store_model.specs.Causes.{first_refusal};
ghost use Rattle.store_model.specs.Worlds.{World, marks};
ghost use Rattle.cut_core.specs.Holding.{Holds, beside_of, beside_stage};
ghost use Rattle.cut_core.specs.Given.{closed_reply, closed_note, marked_reply, KeepsGiven, HeldGiven, IsCutOf, CutAnswers};

use crate::held::{Held, HeldCut, Stage};
use cut_builder::{ClosedCut, MarkedCut};
use object_graph::Refusal;
use std::snapshot::Snapshot;

impl Held {
    /// Closes the cut that is copied. It leaves, and contracts alone see it from then on.
    pub fn close(&mut self) -> Result<ClosedCut, Refusal>
        requires { (w : World) × Holds self.old w }
        ensures well { (w : World) → Holds self.old w → w.broken ≡ None → CutAnswers self.new w Close (closed_note result) (closed_reply result) }
        ensures out { IfOk result (λ cut. cut.pages ≡ (beside_of self.old.cut).pages) }
        ensures sound { IfOk result (λ cut. (w : World) → Holds self.old w → IsCutOf w cut) }
        ensures given { KeepsGiven self.old self.new }
        ensures gives { IfOk result (λ cut. HeldGiven self.new cut.number cut.pages) }
        ensures other { (why : AnyRefusal) → result ≡ Err why → why ≢ DiskFault }
    {
        let Some(held) = self.cut.take() else {
            return Err(Refusal::NoCut);
        };
        let HeldCut {
            number,
            stage,
            swept,
        } = held;
        let cut = match stage {
            Stage::Copying { cut } => cut,
            stage => {
                let now = stage.phase();
                self.cut = Some(HeldCut {
                    number,
                    stage,
                    swept,
                });
                return Err(Refusal::WrongPhase { now });
            }
        };
        match cut.close() {
            Ok(closed) => {
                self.cut = Some(HeldCut {
                    number,
                    stage: Stage::Closed {
                        given: Snapshot::of(&closed),
                    },
                    swept,
                });
                Ok(closed)
            }
            Err(back) => {
                let (cut, uncopied) = back;
                self.cut = Some(HeldCut {
                    number,
                    stage: Stage::Copying { cut },
                    swept,
                });
                Err(Refusal::Uncopied {
                    page: uncopied.page,
                })
            }
        }
    }

    /// The number of the cut that is closed, and may be given marks.
    pub fn number_to_mark(&self) -> Result<u64, Refusal>
        ensures refused { (why : AnyRefusal) → result ≡ Err why → (w : World) → Holds self.now w → w.broken ≡ None → (workers : ℕ) (number : Option ℕ) → first_refusal w (Mark workers) (marks number) ≡ Some why }
        ensures memory { OnOk result ((w : World) → Holds self.now w → w.broken ≡ None → (workers : ℕ) → first_refusal w (Mark workers) (marks None) ≡ Some NoMemory) }
        ensures number { IfOk result (λ n. (w : World) → Holds self.now w → IsSomeAnd w.cut (λ cut. (cut.number ≡ n) × (cut.phase ≡ ClosedPhase))) }
        ensures other { (why : AnyRefusal) → result ≡ Err why → why ≢ DiskFault }
    {
        let Some(held) = &self.cut else {
            return Err(Refusal::NoCut);
        };
        if !held.is_closed() {
            return Err(Refusal::WrongPhase {
                now: held.stage.phase(),
            });
        }
        Ok(held.number)
    }

    /// Takes the marks of the cut that is closed, which is swept from then on. Those of another come
    /// back.
    pub fn take_marks(&mut self, marked: MarkedCut) -> Result<(), (MarkedCut, Refusal)>
        requires same { IfSome self.old.cut (λ cut. cut.number ≡ marked.cut.number → marked.cut.pages ≡ (beside_stage cut.stage).pages) }
        ensures well { (w : World) → Holds self.old w → w.broken ≡ None → (workers : ℕ) → CutAnswers self.new w (Mark workers) (marks (Some marked.cut.number)) (marked_reply result) }
        ensures back { IfErr result (λ e. e.0 ≡ marked) }
        ensures given { KeepsGiven self.old self.new }
        ensures other { (why : AnyRefusal) → marked_reply result ≡ Refused why → why ≢ DiskFault }
    {
        let Some(held) = &mut self.cut else {
            return Err((marked, Refusal::NoCut));
        };
        if !held.is_closed() {
            let now = held.stage.phase();
            return Err((marked, Refusal::WrongPhase { now }));
        }
        if held.number != marked.number() {
            let now = held.number;
            return Err((marked, Refusal::OtherCut { now }));
        }
        held.stage = Stage::Sweeping { marked };
        Ok(())
    }
}
