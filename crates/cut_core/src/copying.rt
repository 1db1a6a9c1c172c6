//! Copies of pages, and what a commit gives a cut.
ghost use Rattle.object_graph.specs.declared.calls.Refusal.TheVariants.{DiskFault};
ghost use Rattle.std.specs.Prelude.{◌≡◌, ◌≢◌, ◌<◌, ◌≤◌, ◌+◌, ℕ, true, Some, None, Err, OnOk, OnErr, length, slice_set, is_some};
ghost use Rattle.object_graph.specs.declared.calls.Refusal.{Refusal as AnyRefusal};
ghost use Rattle.store_model.specs.Worlds.{World};
ghost use Rattle.page_buffer.specs.Frames.{frame_at};
ghost use Rattle.cut_model.specs.CutPages.{with_copy, with_commit};
ghost use Rattle.cut_core.specs.Joints.{copy_of_frame};
ghost use Rattle.cut_builder.specs.CutParts.{page_in_cut, with_cut_page, copied_of, IsLater, HasOneNameEach};
ghost use Rattle.cut_core.specs.Holding.{Copies, copy_refusal, before_of_frame, IsImageGiven, IsGivenUpTo};
ghost use Rattle.transactions.specs.Tables.{pages_in};
ghost use Rattle.transactions.specs.Tables.{entry_of};

use cut_builder::Cut;
use object_graph::{Refusal, Steps};
use page_buffer::Frame;
use page_image::PageCopy;
use std::sync::ledger::Ledger;
use transactions::Transactions;

/// The copy of a page that is its frame.
fn copy_of(frame: &Frame, page: u32, moment: u64, cut: u64) -> PageCopy
    ensures copied { copied_of result ≡ copy_of_frame moment frame.now }
    ensures page { result.page ≡ page }
    ensures current { result.current ≡ frame.now.current }
    ensures before { result.before ≡ before_of_frame frame.now }
    ensures moment { result.moment ≡ moment }
{
    PageCopy {
        page,
        current: frame.current,
        before: if frame.dirty {
            Some(frame.before)
        } else {
            None
        },
        moment,
        cut,
        seen: 0,
    }
}

/// Copies a page as its frame stands.
pub fn copy_page<L: Ledger>(
    cut: &mut Cut,
    transactions: &Transactions,
    number: u64,
    commits: u64,
    page: u32,
    steps: &mut Steps<L>,
) -> Result<(), Refusal>
    requires { (w : World) × Copies transactions.now cut.old w × (w.commits ≡ commits) }
    ensures copied { OnOk result (cut.new ≡ with_cut_page cut.old page (with_copy (copy_of_frame commits (frame_at transactions.now.frames page)) (page_in_cut cut.old.pages page))) }
    ensures within { OnOk result (page < length transactions.now.frames) }
    ensures may { OnOk result (copy_refusal (length transactions.now.frames) cut.old.pages page ≡ None) }
    ensures unchanged { OnErr result (cut.new ≡ cut.old) }
    ensures why { (why : AnyRefusal) → result ≡ Err why → copy_refusal (length transactions.now.frames) cut.old.pages page ≡ Some why }
    ensures other { (why : AnyRefusal) → result ≡ Err why → why ≢ DiskFault }
    ensures step { steps.new ≤ steps.old + 1 }
{
    if page >= transactions.pages() {
        return Err(Refusal::NoPage);
    }
    if cut.is_copied(page) {
        return Err(Refusal::AlreadyCopied { page });
    }
    let copy = copy_of(transactions.frame(page, steps), page, commits, number);
    cut.add_copy(&copy);
    Ok(())
}

/// Gives a cut the image of a page that is committed, and the slots in which objects were made.
fn give_image(cut: &mut Cut, frame: &Frame, moment: u64)
    requires page { frame.now.current.number < length cut.old.pages }
    requires later { IsLater moment (page_in_cut cut.old.pages frame.now.current.number) }
    requires names { HasOneNameEach (slice_set cut.old.pages frame.now.current.number (with_commit frame.now.current.slots moment (page_in_cut cut.old.pages frame.now.current.number).born (page_in_cut cut.old.pages frame.now.current.number))) }
    ensures { IsImageGiven frame.now moment cut.old cut.new }
{
    cut.add_after(&frame.current, moment);
    let made = frame.current.used().without(frame.before.used());
    cut.add_born(frame.current.number(), made);
}

/// Gives a cut the images of the pages that a transaction commits.
pub fn give_images<L: Ledger>(
    cut: &mut Cut,
    transactions: &Transactions,
    txn: u32,
    moment: u64,
    steps: &mut Steps<L>,
)
    requires cut { (w : World) × Copies transactions.now cut.old w × (w.commits + 1 ≡ moment) }
    requires is_open { is_some (entry_of transactions.now.table txn) ≡ true }
    ensures { (w : World) → Copies transactions.now cut.old w → w.commits + 1 ≡ moment → IsGivenUpTo w txn moment (pages_in (entry_of transactions.now.table txn)) cut.old cut.new }
{
    let mut at = 0;
    'pages: while let Some(page) = transactions.written(txn, at) {
        give_image(cut, transactions.frame(page, steps), moment);
        at += 1;
    }
}
