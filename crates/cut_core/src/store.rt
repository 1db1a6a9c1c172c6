//! The store as it is kept: open transactions, the journal and the disk.
use crate::commit::{stage_commit, write_record};
use crate::held::Held;
use crate::transact::transact;
use disk_trait::{Disk, Failed};
use object_graph::{Call, MOST_COUNTED, Refusal, Reply, Steps};
use redo_journal::Journal;
use std::sync::ledger::Ledger;
use transactions::Transactions;

/// What a core keeps, beside the world for which it stands.
#[derive(Drop)]
pub struct Store<D: Disk> {
    pub transactions: Transactions,
    pub journal: Journal,
    pub disk: D,
    pub commits: u64,
    /// The disk's count of faults as the call ended that broke the store.
    pub broken: Option<u64>,
}

impl<D: Disk> Store<D> {
    ghost use Rattle.std.specs.Prelude.{◌≡◌, ◌≢◌, ℕ, None};
    ghost use Rattle.object_graph.specs.declared.calls.Call.TheVariants.{Commit, Sweep};
    ghost use Rattle.object_graph.specs.declared.calls.Refusal.TheVariants.{DiskFault};
    ghost use Rattle.object_graph.specs.declared.calls.Reply.TheVariants.{Refused, Freed};
    ghost use Rattle.disk_trait.specs.Causes.{Rose};
    ghost use Rattle.disk_trait.specs.DiskFacts.{KeepsDisk};
    ghost use Rattle.store_model.specs.Worlds.{World};
    ghost use Rattle.store_model.specs.Steps.{next};
    ghost use Rattle.cut_model.specs.Doomed.{AreDoomedOn};
    ghost use Rattle.cut_core.specs.Calls.{IsOfStore, TakesSteps, event_of};
    ghost use Rattle.cut_core.specs.Given.{KeepsGiven};
    ghost use Rattle.cut_core.specs.Holding.{Holds, beside_of};
    ghost use Rattle.cut_core.specs.Standing.{Stands, StepsWell, CrashesWell};
    ghost use Rattle.cut_core.specs.Touched.{TouchesWell};

    /// One call, and its reply.
    #[inline(always)]
    pub fn call<L: Ledger>(&mut self, held: &mut Held, call: &Call, steps: &mut Steps<L>) -> Reply
        requires built { IsOfStore call.now }
        requires stands { (w : World) × Stands D.Disk self.old w × Holds held.old w }
        ensures held { (w : World) → Stands D.Disk self.old w → Holds held.old w → Holds held.new (next w (event_of call.now result (D.fault_count self.new.disk))) }
        ensures given { KeepsGiven held.old held.new }
        ensures steps { StepsWell D.Disk self.old held.old self.new (event_of call.now result (D.fault_count self.new.disk)) }
        ensures any_moment { CrashesWell D.Disk self.old held.old self.new (event_of call.now result (D.fault_count self.new.disk)) }
        ensures fault { result ≡ Refused DiskFault → Rose (D.fault_count self.old.disk) (D.fault_count self.new.disk) }
        ensures calm { result ≢ Refused DiskFault → D.fault_count self.new.disk ≡ D.fault_count self.old.disk }
        ensures keeps { KeepsDisk D.Disk self.old.disk self.new.disk }
        ensures freed { (page slots : ℕ) → call.now ≡ Sweep page → result ≡ Freed slots → AreDoomedOn (beside_of held.old.cut).starts (beside_of held.old.cut).pages page slots }
        ensures idle { (page : ℕ) → call.now ≡ Sweep page → result ≡ Freed 0 → self.new.disk ≡ self.old.disk }
        ensures taken { TakesSteps call.now result steps.old steps.new }
        ensures frames { TouchesWell self.old.transactions self.new.transactions call.now result }
    {
        if let Some(faults) = self.broken {
            return Reply::Refused {
                why: Refusal::Broken { faults },
            };
        }
        match *call {
            Call::Commit { txn } => self.commit(held, txn, steps),
            Call::Sweep { page } => self.sweep(held, page, steps),
            _ => transact(&mut self.transactions, call, steps),
        }
    }

    /// Commits what a transaction wrote: a record of its pages is written to the journal, and then
    /// they are settled.
    #[inline(never)]
    fn commit<L: Ledger>(&mut self, held: &mut Held, txn: u32, steps: &mut Steps<L>) -> Reply
        requires sound { self.old.broken ≡ None }
        requires stands { (w : World) × Stands D.Disk self.old w × Holds held.old w }
        ensures held { (w : World) → Stands D.Disk self.old w → Holds held.old w → Holds held.new (next w (event_of (Commit txn) result (D.fault_count self.new.disk))) }
        ensures given { KeepsGiven held.old held.new }
        ensures steps { StepsWell D.Disk self.old held.old self.new (event_of (Commit txn) result (D.fault_count self.new.disk)) }
        ensures any_moment { CrashesWell D.Disk self.old held.old self.new (event_of (Commit txn) result (D.fault_count self.new.disk)) }
        ensures fault { result ≡ Refused DiskFault → Rose (D.fault_count self.old.disk) (D.fault_count self.new.disk) }
        ensures calm { result ≢ Refused DiskFault → D.fault_count self.new.disk ≡ D.fault_count self.old.disk }
        ensures keeps { KeepsDisk D.Disk self.old.disk self.new.disk }
        ensures frames { TouchesWell self.old.transactions self.new.transactions (Commit txn) result }
    {
        if !self.transactions.is_open(txn) {
            return Reply::Refused {
                why: Refusal::NotOpen,
            };
        }
        if self.commits >= MOST_COUNTED {
            return Reply::Refused {
                why: Refusal::Spent {
                    count: self.commits,
                },
            };
        }
        stage_commit(&self.transactions, &mut self.journal, txn, steps);
        match write_record(&mut self.disk, &mut self.journal, self.commits) {
            Ok(()) => {
                held.commit(&self.transactions, txn, self.commits, steps);
                self.transactions.finish(txn);
                self.commits += 1;
                Reply::Committed {
                    commits: self.commits,
                }
            }
            Err(Failed) => {
                self.broken = Some(self.disk.faults());
                Reply::Refused {
                    why: Refusal::DiskFault,
                }
            }
        }
    }
}
