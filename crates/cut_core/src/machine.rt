//! The store, beside the world that it stands for.
ghost use Rattle.std.specs.Prelude.{◌≡◌, ◌≢◌, ◌≤◌, ◌<◌, ◌+◌, ◌↔◌, ℕ, List, [], Option, Some, None, Err, IfOk, IfErr, OnOk, IfSome, IsSomeAnd, length, slice_get};
ghost use Rattle.object_graph.specs.declared.calls.Call.TheVariants.{Copy, Reopen, Sweep};
ghost use Rattle.object_graph.specs.declared.calls.Refusal.{Refusal as AnyRefusal};
ghost use Rattle.object_graph.specs.declared.calls.Reply.TheVariants.{Done, Freed, Refused};
ghost use Rattle.object_graph.specs.declared.calls.Refusal.TheVariants.{DiskFault};
ghost use Rattle.disk_trait.specs.Causes.{Rose};
ghost use Rattle.disk_trait.specs.DiskFacts.{LeavesOnly, KeepsDisk};
ghost use Rattle.store_model.specs.Lawful.{IsLawful};
ghost use Rattle.store_model.specs.Replies.{Allows};
ghost use Rattle.store_model.specs.Steps.{next};
ghost use Rattle.image_model.specs.Opening.{StoreParts, not_a_store, damaged};
ghost use Rattle.image_model.specs.Stores.{IsStore, HasFault};
ghost use Rattle.image_model.specs.Stands.{StandsForWorld, opened_world};
ghost use Rattle.transactions.specs.Standing.{IsFrameOf, AreFramesOf};
ghost use Rattle.cut_core.specs.Calls.{IsBuilt, TakesSteps, event_of};
ghost use Rattle.object_graph.specs.declared.calls.Refusal.TheVariants.{Memory as NoMemory};
ghost use Rattle.object_graph.specs.declared.calls.Phase.TheVariants.{Closed as ClosedPhase};
ghost use Rattle.cut_model.specs.CutPages.{CutPage};
ghost use Rattle.cut_model.specs.Doomed.{AreDoomedOn};
ghost use Rattle.cut_model.specs.Standing.{IsStanding};
ghost use Rattle.cut_core.specs.Given.{close_event, mark_event, marked_reply, HasGiven, IsCutOf, AreOfTheCut};
ghost use Rattle.cut_core.specs.Holding.{AddsFrame};
ghost use Rattle.cut_core.specs.Reopening.{Happens, IsOpenedAnew, IsOfReopening};
ghost use Rattle.cut_core.specs.Seen.{StandsForEither};
ghost use Rattle.cut_core.specs.Starts.{IsJustOpened, disk_left};
ghost use Rattle.cut_core.specs.Touched.{AreTouched};
ghost use Rattle.page_buffer.specs.Frames.{frame_at};

use crate::cutting::answer;
use crate::held::Held;
use crate::kept_world::{Answered, Closing, KeptWorld, Marking};
use crate::store::Store;
use crate::touched::Touched;
use cut_builder::{ClosedCut, MarkedCut};
use disk_trait::Disk;
use object_graph::{Call, Memory, Refusal, Reply, Steps};
use page_buffer::Frame;
use recovery::{OpenFault, Opened, open_store};
use std::alloc::Global;
use std::marker::Model;
use std::sync::ledger::Ledger;
use told::Told;
use transactions::Transactions;

/// The store on a disk. Contracts see the world that it stands for, and the disk.
#[derive(Drop)]
pub struct Core<D: Disk> {
    alloc: Global,
    store: Store<D>,
    held: Held,
    told: Told<KeptWorld>,
    touched: Touched,
}

impl<D: Disk> Model for Core<D> {
    ghost use Rattle.cut_core.specs.Seen.{Seen};

    ghost Value = { Seen D };

    ghost use Rattle.cut_core.specs.Holding.{beside_of};
    ghost use Rattle.cut_core.specs.Whole.{StandsWithCut};

    ghost view = { λ c. record { world = c.told.value; disk = c.store.disk; beside = beside_of c.held.cut; frames = c.store.transactions.frames; touched = c.touched } };

    ghost invariant = { λ c. StandsWithCut D.Disk c.store c.held c.told.value };
}

impl<D: Disk> Core<D> {
    /// The store as the disk stands, with no transaction open. It begins with a sync, and writes
    /// nothing.
    pub fn start(alloc: Global, disk: D) -> Result<Core<D>, (D, OpenFault)>
        ensures world { IfOk result (λ core. IfSome (D.content disk) (λ file. core.world ≡ opened_world file)) }
        ensures store { IfOk result (λ core. IfSome (D.content disk) (λ file. (store : StoreParts) × IsStore file store)) }
        // Whatever the disk tells.
        ensures just_opened { IfOk result (λ core. IsJustOpened core.world) }
        ensures touched { IfOk result (λ core. core.touched ≡ []) }

        // Why it isn't opened.
        ensures none { (left : D) → result ≡ Err (left, OpenFault.NotAStore) → IfSome (D.content disk) (λ file. HasFault file not_a_store) }
        ensures bad { (left : D) (at : ℕ) → result ≡ Err (left, OpenFault.Damaged at) → IfSome (D.content disk) (λ file. HasFault file (damaged at)) }
        ensures fault { (left : D) → result ≡ Err (left, OpenFault.DiskFault) → Rose (D.fault_count disk) (D.fault_count left) }

        // No fault is passed over, or told as something else.
        ensures calm { IfOk result (λ core. D.fault_count core.disk ≡ D.fault_count disk) }
        ensures calm_none { (left : D) → result ≡ Err (left, OpenFault.NotAStore) → D.fault_count left ≡ D.fault_count disk }
        ensures calm_bad { (left : D) (at : ℕ) → result ≡ Err (left, OpenFault.Damaged at) → D.fault_count left ≡ D.fault_count disk }
        ensures lack { (left : D) → result ≡ Err (left, OpenFault.Memory) → D.fault_count left ≡ D.fault_count disk }

        // The disk, kept or handed back, is as before.
        ensures content { D.content (disk_left result) ≡ D.content disk }
        ensures images { (image : List ℕ) → D.may_leave (disk_left result) image → D.may_leave disk image }
        ensures any_moment { LeavesOnly D.Disk disk (disk_left result) (D.may_leave disk) }
        ensures keeps { KeepsDisk D.Disk disk (disk_left result) }
    {
        let mut disk = disk;
        let opened = match open_store(alloc, &mut disk) {
            Ok(opened) => opened,
            Err(fault) => return Err((disk, fault)),
        };
        let told = Told::by(&opened);
        let Ok(touched) = Touched::with_room(alloc) else {
            return Err((disk, OpenFault::Memory));
        };
        let Opened {
            pages,
            commits,
            journal,
        } = opened;
        match Transactions::new(alloc, pages) {
            Ok(transactions) => Ok(Core {
                alloc,
                store: Store {
                    transactions,
                    journal,
                    disk,
                    commits,
                    broken: None,
                },
                held: Held {
                    cut: None,
                    last_cut: 0,
                },
                told,
                touched,
            }),
            Err(Memory) => Err((disk, OpenFault::Memory)),
        }
    }

    /// One call, and its reply. After a refusal the store is as before, but for a disk fault: from
    /// then on it is broken, and the commit or the sweep is in doubt.
    #[inline(always)]
    pub fn call<L: Ledger>(&mut self, call: Call, steps: &mut Steps<L>) -> Reply
        requires { IsBuilt call }

        // The reply is one that the model allows, and the world is the next.
        ensures allowed { Allows self.old.world (event_of call result (D.fault_count self.new.disk)) }
        ensures world { self.new.world ≡ next self.old.world (event_of call result (D.fault_count self.new.disk)) }

        // A crash at any moment of the call leaves the world before it or the one after it.
        ensures any_moment { IfSome (D.content self.old.disk) (λ file. LeavesOnly D.Disk self.old.disk self.new.disk (StandsForEither self.old.world self.new.world)) }
        // As the call ends, a crash leaves the world after it.
        ensures now { IfSome (D.content self.new.disk) (λ file. (image : List ℕ) → D.may_leave self.new.disk image → StandsForWorld image self.new.world) }

        // A fault of the disk is told, and nothing else is told for one.
        ensures fault { result ≡ Refused DiskFault → Rose (D.fault_count self.old.disk) (D.fault_count self.new.disk) }
        ensures calm { result ≢ Refused DiskFault → D.fault_count self.new.disk ≡ D.fault_count self.old.disk }
        ensures keeps { KeepsDisk D.Disk self.old.disk self.new.disk }
        // What a cut gave out as it closed stays.
        ensures given { (number : ℕ) (pages : List CutPage) → HasGiven self.old.world self.old.beside number pages → HasGiven self.new.world self.new.beside number pages }

        // A copy is the page's frame as it stands: what is seen there, beside it what is committed where a
        // transaction wrote the page, and the commits so far.
        ensures copied { (page : ℕ) → call ≡ Copy page → result ≡ Done → AddsFrame self.old.world page self.old.beside self.new.beside }

        // A sweep frees exactly the slots of the doomed names on its page, and calls the disk only where it frees.
        ensures freed { (page slots : ℕ) → call ≡ Sweep page → result ≡ Freed slots → AreDoomedOn self.old.beside.starts self.old.beside.pages page slots }
        ensures idle { (page : ℕ) → call ≡ Sweep page → result ≡ Freed 0 → self.new.disk ≡ self.old.disk }

        // How often a call on the cut reads a frame or frees in one: a copy once at most, a sweep that frees
        // twice.
        ensures taken { TakesSteps call result steps.old steps.new }

        // What it changed of the frames.
        ensures touched { AreTouched self.old.world call result self.old.frames self.new.frames self.new.touched }
    {
        self.touched.note_call(&self.store.transactions, &call);
        let reply = answer(&mut self.store, &mut self.held, self.alloc, &call, steps);
        let faults = self.store.disk.faults();
        self.told = Told::by(&Answered {
            world: &self.told,
            call: &call,
            reply: &reply,
            faults,
        });
        self.touched
            .note_reply(&call, &reply, self.store.transactions.pages());
        reply
    }

    /// Opens the store again: the disk is synced and read, and all transactions are dropped. After want
    /// of memory, and where the disk holds no store any more, it is as before; after a disk fault it
    /// is broken.
    pub fn reopen(&mut self) -> Reply
        ensures answer { IsOfReopening result }
        // Where the disk tells, the reply is one that the model allows, and the world is the next.
        ensures happens { IfSome (D.content self.old.disk) (λ file. Happens self.old.world Reopen result (D.fault_count self.new.disk) self.new.world) }
        // Where it doesn't, the world is one that the store opens to.
        ensures anew { (commits : ℕ) → result ≡ Reply.Reopened commits → D.content self.old.disk ≡ None → IsOpenedAnew self.old.world commits self.new.world }

        ensures kept { (why : AnyRefusal) → result ≡ Refused why → why ≢ DiskFault → self.new.world ≡ self.old.world }
        ensures broken { result ≡ Refused DiskFault → self.new.world ≡ next self.old.world (event_of Reopen result (D.fault_count self.new.disk)) }

        // A crash at any moment leaves the world before it or the one after it, and as it ends the
        // one after it.
        ensures any_moment { IfSome (D.content self.old.disk) (λ file. LeavesOnly D.Disk self.old.disk self.new.disk (StandsForEither self.old.world self.new.world)) }
        ensures now { IfSome (D.content self.new.disk) (λ file. (image : List ℕ) → D.may_leave self.new.disk image → StandsForWorld image self.new.world) }

        ensures fault { result ≡ Refused DiskFault → Rose (D.fault_count self.old.disk) (D.fault_count self.new.disk) }
        ensures calm { result ≢ Refused DiskFault → D.fault_count self.new.disk ≡ D.fault_count self.old.disk }
        ensures content { D.content self.new.disk ≡ D.content self.old.disk }
        ensures keeps { KeepsDisk D.Disk self.old.disk self.new.disk }
        ensures given { (number : ℕ) (pages : List CutPage) → HasGiven self.old.world self.old.beside number pages → HasGiven self.new.world self.new.beside number pages }
        // From `Reopened` on all pages are touched, and by a refusal none.
        ensures touched { AreTouched self.old.world Reopen result self.old.frames self.new.frames self.new.touched }
    {
        let (reply, told) = self.store.reopen(&mut self.held, self.alloc, &self.told);
        self.told = told;
        self.touched
            .note_reply(&Call::Reopen, &reply, self.store.transactions.pages());
        reply
    }

    /// Closes the cut that is copied. It leaves with the images and born slots that it has.
    pub fn close_cut(&mut self) -> Result<ClosedCut, Refusal>
        ensures allowed { Allows self.old.world (close_event result) }
        ensures world { self.new.world ≡ next self.old.world (close_event result) }
        ensures out { IfOk result (λ cut. cut.pages ≡ self.old.beside.pages) }
        ensures sound { IfOk result (λ cut. IsCutOf self.old.world cut) }
        ensures gives { IfOk result (λ cut. HasGiven self.new.world self.new.beside cut.number cut.pages) }
        ensures given { (number : ℕ) (pages : List CutPage) → HasGiven self.old.world self.old.beside number pages → HasGiven self.new.world self.new.beside number pages }
        ensures disk { self.new.disk ≡ self.old.disk }
        ensures touched { self.new.touched ≡ [] }
        ensures frames { self.new.frames ≡ self.old.frames }
    {
        self.touched.note_nothing();
        if let Some(faults) = self.store.broken {
            return Err(Refusal::Broken { faults });
        }
        let answer = self.held.close();
        self.told = Told::by(&Closing {
            world: &self.told,
            answer: &answer,
        });
        answer
    }

    /// The number of the cut that is closed, to which marks may be given.
    pub fn may_mark(&self) -> Result<u64, Refusal>
        // Whichever marks, or none, would be given.
        ensures refused { (why : AnyRefusal) → result ≡ Err why → (workers : ℕ) (number : Option ℕ) → Allows self.now.world (mark_event workers number (Refused why)) }
        // Where marking finds no memory, that is allowed as the reply.
        ensures memory { OnOk result ((workers : ℕ) → Allows self.now.world (mark_event workers None (Refused NoMemory))) }
        ensures number { IfOk result (λ n. IsSomeAnd self.now.world.cut (λ cut. (cut.number ≡ n) × (cut.phase ≡ ClosedPhase))) }
    {
        if let Some(faults) = self.store.broken {
            return Err(Refusal::Broken { faults });
        }
        self.held.number_to_mark()
    }

    /// Gives the closed cut its marks, by which it is swept. Marks of another cut come back.
    pub fn give_marks(&mut self, marked: MarkedCut) -> Result<(), (MarkedCut, Refusal)>
        requires { AreOfTheCut self.old.world self.old.beside marked }
        ensures allowed { (workers : ℕ) → Allows self.old.world (mark_event workers (Some marked.cut.number) (marked_reply result)) }
        ensures world { (workers : ℕ) → self.new.world ≡ next self.old.world (mark_event workers (Some marked.cut.number) (marked_reply result)) }
        ensures back { IfErr result (λ e. e.0 ≡ marked) }
        ensures given { (number : ℕ) (pages : List CutPage) → HasGiven self.old.world self.old.beside number pages → HasGiven self.new.world self.new.beside number pages }
        ensures disk { self.new.disk ≡ self.old.disk }
        ensures touched { self.new.touched ≡ [] }
        ensures frames { self.new.frames ≡ self.old.frames }
    {
        self.touched.note_nothing();
        if let Some(faults) = self.store.broken {
            return Err((marked, Refusal::Broken { faults }));
        }
        let number = marked.number();
        let answer = self.held.take_marks(marked);
        self.told = Told::by(&Marking {
            world: &self.told,
            number,
            answer: &answer,
        });
        answer
    }

    /// What it stands for is lawful, and is what a crash now leaves, where its disk tells that. It
    /// does nothing else.
    pub fn stands(&self)
        ensures lawful { IsLawful self.now.world }
        // In each phase its cut is sound for what it is used for.
        ensures cut { IsStanding self.now.world self.now.beside }
        ensures frames { AreFramesOf self.now.world self.now.frames }
        ensures now { IfSome (D.content self.now.disk) (λ file. (image : List ℕ) → D.may_leave self.now.disk image → StandsForWorld image self.now.world) }
    {
        let _store = &self.store;
    }

    /// The frame of a page: its committed image, and what a transaction sees that wrote it. It is one
    /// step of the counter.
    pub fn frame<L: Ledger>(&self, page: u32, steps: &mut Steps<L>) -> &Frame
        requires { page < self.now.world.pages }
        ensures frame { IsFrameOf self.now.world page result.now }
        ensures value { result.now ≡ frame_at self.now.frames page }
        ensures step { steps.new ≡ steps.old + 1 }
    {
        self.store.transactions.frame(page, steps)
    }

    /// The page at this place of those whose frames the last call changed, ascending. Before the first
    /// call there is none, and calls that change nothing of the core, as this one, don't count.
    pub fn touched(&self, at: u32) -> Option<u32>
        ensures page { result ≡ slice_get self.now.touched at }
        ensures past { (result ≡ None) ↔ (length self.now.touched ≤ at) }
    {
        self.touched.page(at)
    }

    /// How many commits there were.
    pub fn commits(&self) -> u64
        ensures { result ≡ self.now.world.commits }
    {
        self.store.commits
    }

    /// How many pages the store has.
    pub fn pages(&self) -> u32
        ensures { result ≡ self.now.world.pages }
    {
        self.store.transactions.pages()
    }

    /// The number of the last cut that was opened, or 0.
    pub fn last_cut(&self) -> u64
        ensures { result ≡ self.now.world.last_cut }
    {
        self.held.last_cut
    }

    /// The disk's count of faults as the call ended that broke the store, if one did.
    pub fn broken(&self) -> Option<u64>
        ensures { result ≡ self.now.world.broken }
    {
        self.store.broken
    }

    /// The disk.
    pub fn into_disk(self) -> D
        ensures { result ≡ self.disk }
    {
        let Core {
            alloc: _,
            store,
            held: _,
            told: _,
            touched: _,
        } = self;
        let Store {
            transactions: _,
            journal: _,
            disk,
            commits: _,
            broken: _,
        } = store;
        disk
    }
}
