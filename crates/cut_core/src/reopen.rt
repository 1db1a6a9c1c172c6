//! Opening the store again.
ghost use Rattle.std.specs.Prelude.{◌≡◌};
ghost use Rattle.cut_core.specs.Reopening.{refusal_of};

use crate::held::Held;
use crate::kept_world::{Answered, FoundAgain, KeptWorld};
use crate::store::Store;
use disk_trait::Disk;
use object_graph::{Call, Memory, Refusal, Reply};
use recovery::{OpenFault, Opened, open_store};
use std::alloc::Global;
use told::Told;
use transactions::Transactions;

/// Why a store isn't opened, as a reply.
fn refusal_of_fault(fault: OpenFault) -> Refusal
    ensures { result ≡ refusal_of fault }
{
    match fault {
        OpenFault::DiskFault => Refusal::DiskFault,
        OpenFault::NotAStore => Refusal::NotAStore,
        OpenFault::Damaged { at } => Refusal::Damaged { at },
        OpenFault::Memory => Refusal::Memory,
    }
}

impl<D: Disk> Store<D> {
    ghost use Rattle.std.specs.Prelude.{◌≡◌, ◌≢◌, ℕ, List, None, Err, IfOk, IfSome, IsErrOf, OnErr};
    ghost use Rattle.object_graph.specs.declared.calls.Call.TheVariants.{Reopen};
    ghost use Rattle.object_graph.specs.declared.calls.Refusal.TheVariants.{DiskFault};
    ghost use Rattle.object_graph.specs.declared.calls.Reply.TheVariants.{Refused};
    ghost use Rattle.disk_trait.specs.Causes.{Rose};
    ghost use Rattle.disk_trait.specs.DiskFacts.{LeavesOnly, KeepsDisk};
    ghost use Rattle.object_graph.specs.declared.calls.Refusal.{Refusal as AnyRefusal};
    ghost use Rattle.store_model.specs.Steps.{next};
    ghost use Rattle.cut_core.specs.Calls.{event_of};
    ghost use Rattle.cut_core.specs.Reopening.{IsReopened, IsOpenedAnew, HasNoCut, Happens, IsOfReopening, refusal_of};
    ghost use Rattle.cut_core.specs.Given.{KeepsGiven};
    ghost use Rattle.cut_core.specs.Holding.{Holds};
    ghost use Rattle.cut_core.specs.Seen.{StandsForEither};
    ghost use Rattle.cut_core.specs.Standing.{Stands};
    ghost use Rattle.cut_core.specs.Touched.{TouchesWell};

    /// Opens the store again, and drops all transactions. The disk is read, and the rest stays where
    /// it isn't a store, or memory lacks.
    fn open_again(
        &mut self,
        alloc: Global,
        told: &Told<KeptWorld>,
    ) -> Result<Told<KeptWorld>, OpenFault>
        requires { Stands D.Disk self.old told.now.value }
        ensures taken { IfOk result (λ next. Stands D.Disk self.new next.value) }
        ensures reopened { IfOk result (λ next. IfSome (D.content self.old.disk) (λ file. IsReopened told.now.value self.new.commits next.value)) }
        ensures anew { IfOk result (λ next. D.content self.old.disk ≡ None → IsOpenedAnew told.now.value self.new.commits next.value) }
        ensures cut { IfOk result (λ next. HasNoCut told.now.value next.value) }
        ensures kept { OnErr result (Stands D.Disk self.new told.now.value) }
        ensures same { OnErr result (self.new.transactions ≡ self.old.transactions) }
        ensures none { IsErrOf result OpenFault.NotAStore → D.content self.old.disk ≡ None }
        ensures bad { (at : ℕ) → result ≡ Err (OpenFault.Damaged at) → D.content self.old.disk ≡ None }
        ensures fault { IsErrOf result OpenFault.DiskFault → Rose (D.fault_count self.old.disk) (D.fault_count self.new.disk) }
        ensures calm { result ≢ Err OpenFault.DiskFault → D.fault_count self.new.disk ≡ D.fault_count self.old.disk }
        ensures content { D.content self.new.disk ≡ D.content self.old.disk }
        ensures images { (c : List ℕ) → D.may_leave self.new.disk c → D.may_leave self.old.disk c }
        ensures any_moment { LeavesOnly D.Disk self.old.disk self.new.disk (D.may_leave self.old.disk) }
        ensures keeps { KeepsDisk D.Disk self.old.disk self.new.disk }
    {
        let found = match open_store(alloc, &mut self.disk) {
            Ok(found) => found,
            Err(fault) => return Err(fault),
        };
        if found.pages.len() != self.transactions.pages() as usize {
            return Err(OpenFault::NotAStore);
        }
        let next = Told::by(&FoundAgain {
            world: told,
            found: &found,
            disk: &self.disk,
        });
        let Opened {
            pages,
            commits,
            journal,
        } = found;
        match Transactions::new(alloc, pages) {
            Ok(transactions) => {
                self.transactions = transactions;
                self.journal = journal;
                self.commits = commits;
                self.broken = None;
                Ok(next)
            }
            Err(Memory) => Err(OpenFault::Memory),
        }
    }

    /// Opens the store again, and its reply. The world after it is kept in what it hands back.
    pub fn reopen(
        &mut self,
        held: &mut Held,
        alloc: Global,
        told: &Told<KeptWorld>,
    ) -> (Reply, Told<KeptWorld>)
        requires stands { Stands D.Disk self.old told.now.value }
        requires holds { Holds held.old told.now.value }
        ensures answer { IsOfReopening result.0 }
        ensures holds { Holds held.new result.1.value }
        ensures given { KeepsGiven held.old held.new }
        ensures stands { Stands D.Disk self.new result.1.value }
        ensures happens { IfSome (D.content self.old.disk) (λ file. Happens told.now.value Reopen result.0 (D.fault_count self.new.disk) result.1.value) }
        ensures anew { (commits : ℕ) → result.0 ≡ Reply.Reopened commits → D.content self.old.disk ≡ None → IsOpenedAnew told.now.value commits result.1.value }
        ensures kept { (why : AnyRefusal) → result.0 ≡ Refused why → why ≢ DiskFault → result.1.value ≡ told.now.value }
        ensures broken { result.0 ≡ Refused DiskFault → result.1.value ≡ next told.now.value (event_of Reopen result.0 (D.fault_count self.new.disk)) }
        ensures fault { result.0 ≡ Refused DiskFault → Rose (D.fault_count self.old.disk) (D.fault_count self.new.disk) }
        ensures calm { result.0 ≢ Refused DiskFault → D.fault_count self.new.disk ≡ D.fault_count self.old.disk }
        ensures content { D.content self.new.disk ≡ D.content self.old.disk }
        ensures any_moment { IfSome (D.content self.old.disk) (λ file. LeavesOnly D.Disk self.old.disk self.new.disk (StandsForEither told.now.value result.1.value)) }
        ensures keeps { KeepsDisk D.Disk self.old.disk self.new.disk }
        ensures frames { TouchesWell self.old.transactions self.new.transactions Reopen result.0 }
    {
        match self.open_again(alloc, told) {
            Ok(next) => {
                held.cut = None;
                (
                    Reply::Reopened {
                        commits: self.commits,
                    },
                    next,
                )
            }
            Err(fault) => self.stay(fault, told),
        }
    }

    /// Stays as it is, but for a disk fault: from then on the store is broken.
    fn stay(&mut self, fault: OpenFault, told: &Told<KeptWorld>) -> (Reply, Told<KeptWorld>)
        requires { Stands D.Disk self.old told.now.value }
        ensures stands { Stands D.Disk self.new result.1.value }
        ensures reply { result.0 ≡ Refused (refusal_of fault) }
        ensures world { result.1.value ≡ next told.now.value (event_of Reopen (Refused (refusal_of fault)) (D.fault_count self.old.disk)) }
        ensures disk { self.new.disk ≡ self.old.disk }
        ensures same { self.new.transactions ≡ self.old.transactions }
    {
        let faults = self.disk.faults();
        if let OpenFault::DiskFault = fault {
            self.broken = Some(faults);
        }
        let reply = Reply::Refused {
            why: refusal_of_fault(fault),
        };
        let next = Told::by(&Answered {
            world: told,
            call: &Call::Reopen,
            reply: &reply,
            faults,
        });
        (reply, next)
    }
}
