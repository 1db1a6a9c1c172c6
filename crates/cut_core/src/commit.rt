//! The record of a commit, and how it is written.
ghost use Rattle.std.specs.Prelude.{◌≡◌, ◌≤◌, ◌<◌, ◌+◌, ℕ, List, Some, true, is_some, IfSome, IsSomeAnd, OnOk, OnErr, length};
ghost use Rattle.disk_trait.specs.Causes.{Rose};
ghost use Rattle.disk_trait.specs.DiskFacts.{LeavesOnly, KeepsDisk};
ghost use Rattle.redo_journal.specs.Homes.{store_size};
ghost use Rattle.redo_journal.specs.Journals.{need_of, left_of};
ghost use Rattle.redo_journal.specs.Record.{RecordParts, commits_of};
ghost use Rattle.redo_journal.specs.declared.kind.Kind.TheVariants.{Commit as OfCommit, Sweep as OfSweep};
ghost use Rattle.store_model.specs.States.{State};
ghost use Rattle.image_model.specs.Records.{IsAfterRecord, commit_record};
ghost use Rattle.image_model.specs.Stands.{StandsFor, IsStoreOf};
ghost use Rattle.transactions.specs.Tables.{entry_of};
ghost use Rattle.transactions.specs.Standing.{IsReadyForSome};
ghost use Rattle.cut_core.specs.Writing.{KeepsState, StandsForOneOf, images_written};

use disk_trait::{Disk, Failed};
use object_graph::{MOST_COUNTED, MOST_WRITTEN, Steps};
use recovery::checkpoint;
use redo_journal::{AppendFault, Journal, Kind, LONGEST_RECORD};
use std::sync::ledger::Ledger;
use transactions::Transactions;

/// Stages the record of a commit: the pages that the transaction wrote, as it sees them.
pub fn stage_commit<L: Ledger>(
    transactions: &Transactions,
    journal: &mut Journal,
    txn: u32,
    steps: &mut Steps<L>,
)
    requires ready { IsReadyForSome transactions.now }
    requires is_open { is_some (entry_of transactions.now.table txn) ≡ true }
    requires pages { journal.old.pages ≡ length transactions.now.frames }
    ensures staged { journal.new ≡ record journal.old { staged = Some (commit_record (images_written transactions.now txn)) } }
    ensures few { length (images_written transactions.now txn) ≤ MOST_WRITTEN }
{
    journal.stage(Kind::Commit);
    let mut at = 0;
    'pages: while let Some(page) = transactions.written(txn, at) {
        journal.stage_page(&transactions.frame(page, steps).current);
        at += 1;
    }
}

/// Makes room for the staged record, by a checkpoint where the area has too little.
fn make_room<D: Disk>(disk: &mut D, journal: &mut Journal, commits: u64) -> Result<(), Failed>
    requires few { need_of journal.old.staged ≤ LONGEST_RECORD }
    requires counted { commits ≡ journal.old.base + journal.old.commits }
    requires long { store_size journal.old.pages ≤ D.size disk.old }
    requires own { IfSome (D.content disk.old) (IsStoreOf journal.old) }

    // A crash at any moment leaves the same state.
    ensures any_moment { (file : List ℕ) (s : State) → D.content disk.old ≡ Some file → KeepsState journal.old (D.may_leave disk.old) s file
        → LeavesOnly D.Disk disk.old disk.new (λ image. StandsFor image journal.old.pages s) }
    ensures kept { OnOk result ((file : List ℕ) (s : State) → D.content disk.old ≡ Some file → KeepsState journal.old (D.may_leave disk.old) s file
        → IsSomeAnd (D.content disk.new) (KeepsState journal.new (D.may_leave disk.new) s)) }
    ensures own { OnOk result (IfSome (D.content disk.new) (IsStoreOf journal.new)) }
    ensures room { OnOk result (need_of journal.new.staged ≤ left_of journal.new) }
    ensures staged { OnOk result (journal.new.staged ≡ journal.old.staged) }
    ensures counted { OnOk result (commits ≡ journal.new.base + journal.new.commits) }
    ensures pages { OnOk result (journal.new.pages ≡ journal.old.pages) }
    ensures fault { OnErr result (Rose (D.fault_count disk.old) (D.fault_count disk.new)) }
    ensures calm { OnOk result (D.fault_count disk.new ≡ D.fault_count disk.old) }
    ensures keeps { KeepsDisk D.Disk disk.old disk.new }
{
    if journal.need() <= journal.left() {
        return Ok(());
    }
    checkpoint(disk, journal, commits)
}

/// Appends the staged record, for which there is room.
fn append<D: Disk>(disk: &mut D, journal: &mut Journal) -> Result<(), Failed>
    requires staged { IsSomeAnd journal.old.staged (λ r. r.kind ≡ OfSweep → length r.images ≡ 1) }
    requires unspent { IfSome journal.old.staged (λ r. r.kind ≡ OfCommit → journal.old.base + journal.old.commits < MOST_COUNTED) }
    requires long { store_size journal.old.pages ≤ D.size disk.old }
    requires own { IfSome (D.content disk.old) (IsStoreOf journal.old) }
    requires room { need_of journal.old.staged ≤ left_of journal.old }

    // A crash at any moment leaves the state before the record or the one after it; after `Ok` the one
    // after it alone.
    ensures any_moment { (file : List ℕ) (new : RecordParts) (s t : State) → D.content disk.old ≡ Some file → KeepsState journal.old (D.may_leave disk.old) s file
        → journal.old.staged ≡ Some new → IsAfterRecord journal.old.pages new s t → LeavesOnly D.Disk disk.old disk.new (StandsForOneOf journal.old.pages s t) }
    ensures kept { OnOk result ((file : List ℕ) (new : RecordParts) (s t : State) → D.content disk.old ≡ Some file → KeepsState journal.old (D.may_leave disk.old) s file
        → journal.old.staged ≡ Some new → IsAfterRecord journal.old.pages new s t → IsSomeAnd (D.content disk.new) (KeepsState journal.new (D.may_leave disk.new) t)) }
    ensures counted { OnOk result ((new : RecordParts) → journal.old.staged ≡ Some new → journal.new.base + journal.new.commits ≡ journal.old.base + journal.old.commits + commits_of new.kind) }
    ensures pages { OnOk result (journal.new.pages ≡ journal.old.pages) }
    ensures fault { OnErr result (Rose (D.fault_count disk.old) (D.fault_count disk.new)) }
    ensures calm { OnOk result (D.fault_count disk.new ≡ D.fault_count disk.old) }
    ensures keeps { KeepsDisk D.Disk disk.old disk.new }
{
    match journal.append(disk) {
        Ok(()) => Ok(()),
        Err(AppendFault::DiskFault) => Err(Failed),
        Err(AppendFault::NoRoom { need: _, left: _ }) => unreachable!(),
    }
}

/// Writes the staged record, after a checkpoint where the area has no room for it.
pub fn write_record<D: Disk>(
    disk: &mut D,
    journal: &mut Journal,
    commits: u64,
) -> Result<(), Failed>
    requires few { need_of journal.old.staged ≤ LONGEST_RECORD }
    requires staged { IsSomeAnd journal.old.staged (λ r. r.kind ≡ OfSweep → length r.images ≡ 1) }
    requires unspent { IfSome journal.old.staged (λ r. r.kind ≡ OfCommit → commits < MOST_COUNTED) }
    requires counted { commits ≡ journal.old.base + journal.old.commits }
    requires long { store_size journal.old.pages ≤ D.size disk.old }
    requires own { IfSome (D.content disk.old) (IsStoreOf journal.old) }

    // A crash at any moment leaves the state before the record or the one after it; after `Ok` the one
    // after it alone.
    ensures any_moment { (file : List ℕ) (new : RecordParts) (s t : State) → D.content disk.old ≡ Some file → KeepsState journal.old (D.may_leave disk.old) s file
        → journal.old.staged ≡ Some new → IsAfterRecord journal.old.pages new s t → LeavesOnly D.Disk disk.old disk.new (StandsForOneOf journal.old.pages s t) }
    ensures kept { OnOk result ((file : List ℕ) (new : RecordParts) (s t : State) → D.content disk.old ≡ Some file → KeepsState journal.old (D.may_leave disk.old) s file
        → journal.old.staged ≡ Some new → IsAfterRecord journal.old.pages new s t → IsSomeAnd (D.content disk.new) (KeepsState journal.new (D.may_leave disk.new) t)) }
    ensures counted { OnOk result ((new : RecordParts) → journal.old.staged ≡ Some new → commits + commits_of new.kind ≡ journal.new.base + journal.new.commits) }
    ensures pages { OnOk result (journal.new.pages ≡ journal.old.pages) }
    ensures fault { OnErr result (Rose (D.fault_count disk.old) (D.fault_count disk.new)) }
    ensures calm { OnOk result (D.fault_count disk.new ≡ D.fault_count disk.old) }
    ensures keeps { KeepsDisk D.Disk disk.old disk.new }
{
    make_room(disk, journal, commits)?;
    append(disk, journal)
}
