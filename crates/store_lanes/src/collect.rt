//! A whole cut of a lane.
ghost use Rattle.std.specs.Prelude.{◌≡◌, ◌∷◌, ◌++◌, [], map, true, IfSome};
ghost use Rattle.object_graph.specs.declared.calls.Call.TheVariants.{OpenCut, Close, Mark, EndCut};
ghost use Rattle.object_graph.specs.Slots.{below};
ghost use Rattle.store_model.specs.Histories.{collection};
ghost use Rattle.store_desk.specs.Appended.{IsTaken};
ghost use Rattle.store_desk.specs.Events.{HasClosing};
ghost use Rattle.store_lanes.specs.Lanes.{PartRan, ClosingRan, MarksRan};
ghost use Rattle.store_lanes.specs.Owned.{SameSeat};
ghost use Rattle.store_lanes.specs.Posts.{seat_of};
ghost use Rattle.store_lanes.specs.Served.{call_on, is_plain};

use crate::post::Post;
use crate::step::step;
use cut_builder::{ClosedCut, MarkedCut};
use disk_trait::{Disk, OpenGate};
use mark_pool::mark;
use object_graph::{Call, Memory};
use std::alloc::Global;
use std::sync::Wait;
use std::thread::Threads;
use store_desk::{Desk, DeskSeat};
use store_model::is_refused;

/// What is done with each page.
#[derive(Clone, Copy, Debug, PartialEq, Eq)]
pub enum OnPage {
    Copy,
    Sweep,
}

/// A whole cut: its opening, copies, closing, marks, sweeps and end, up to the first that is refused.
/// Marking is done outside the turn, by so many workers. Answers whether all was done.
pub fn collect<R: Threads + Wait + Sync, D: Disk>(
    rt: &R,
    alloc: Global,
    desk: &Desk<D>,
    post: Post<D>,
    lane: u32,
    workers: u32,
) -> (Post<D>, Result<bool, Memory>)
    requires own { (seat_of post).turn ≡ desk.now.turn }
    requires start { (seat_of post).start ≡ desk.now.value.start ∷ [] }
    ensures ran { PartRan D.Disk desk.now.value.start lane (collection desk.now.value.start.world.pages workers) (seat_of post) (seat_of result.0) result.1 }
    ensures same { SameSeat (seat_of post) (seat_of result.0) }
{
    let (post, copied) = open_and_copy(rt, desk, post, lane);
    match copied {
        Ok(true) => {}
        Ok(false) => return (post, Ok(false)),
        Err(memory) => return (post, Err(memory)),
    }
    let mut seat = post.seated(desk);
    let marked = close_and_mark(rt, alloc, desk, &mut seat, lane, workers);
    let post = Post::Seated { seat };
    match marked {
        Ok(true) => sweep_and_end(rt, desk, post, lane),
        Ok(false) => (post, Ok(false)),
        Err(memory) => (post, Err(memory)),
    }
}

/// Opens a cut, and copies each page.
fn open_and_copy<W: Wait, D: Disk>(
    rt: &W,
    desk: &Desk<D>,
    post: Post<D>,
    lane: u32,
) -> (Post<D>, Result<bool, Memory>)
    requires own { (seat_of post).turn ≡ desk.now.turn }
    ensures ran { PartRan D.Disk desk.now.value.start lane (OpenCut ∷ map (call_on OnPage.Copy) (below desk.now.value.start.world.pages)) (seat_of post) (seat_of result.0) result.1 }
    ensures same { SameSeat (seat_of post) (seat_of result.0) }
{
    let (post, opened) = step(rt, desk, post, lane, Call::OpenCut);
    match opened {
        Ok(true) => on_each_page(rt, desk, post, lane, OnPage::Copy),
        Ok(false) => (post, Ok(false)),
        Err(memory) => (post, Err(memory)),
    }
}

/// Sweeps each page, and ends the cut.
fn sweep_and_end<W: Wait, D: Disk>(
    rt: &W,
    desk: &Desk<D>,
    post: Post<D>,
    lane: u32,
) -> (Post<D>, Result<bool, Memory>)
    requires own { (seat_of post).turn ≡ desk.now.turn }
    ensures ran { PartRan D.Disk desk.now.value.start lane (map (call_on OnPage.Sweep) (below desk.now.value.start.world.pages) ++ EndCut ∷ []) (seat_of post) (seat_of result.0) result.1 }
    ensures same { SameSeat (seat_of post) (seat_of result.0) }
{
    let (post, swept) = on_each_page(rt, desk, post, lane, OnPage::Sweep);
    match swept {
        Ok(true) => step(rt, desk, post, lane, Call::EndCut),
        Ok(false) => (post, Ok(false)),
        Err(memory) => (post, Err(memory)),
    }
}

/// The call on a page.
fn call_on(kind: OnPage, page: u32) -> Call
    ensures is { result ≡ call_on kind page }
    ensures taken { IsTaken result }
    ensures plain { is_plain result ≡ true }
{
    match kind {
        OnPage::Copy => Call::Copy { page },
        OnPage::Sweep => Call::Sweep { page },
    }
}

/// The call on each page, up to the first that is refused.
fn on_each_page<W: Wait, D: Disk>(
    rt: &W,
    desk: &Desk<D>,
    mut post: Post<D>,
    lane: u32,
    kind: OnPage,
) -> (Post<D>, Result<bool, Memory>)
    requires own { (seat_of post).turn ≡ desk.now.turn }
    ensures ran { PartRan D.Disk desk.now.value.start lane (map (call_on kind) (below desk.now.value.start.world.pages)) (seat_of post) (seat_of result.0) result.1 }
    ensures same { SameSeat (seat_of post) (seat_of result.0) }
{
    let pages = desk.pages();
    let mut page: u32 = 0;
    'pages: while page < pages {
        let (next, done) = step(rt, desk, post, lane, call_on(kind, page));
        post = next;
        match done {
            Ok(true) => {}
            Ok(false) => return (post, Ok(false)),
            Err(memory) => return (post, Err(memory)),
        }
        page += 1;
    }
    (post, Ok(true))
}

/// Closes the cut, marks it outside the turn, and gives it its marks.
fn close_and_mark<R: Threads + Wait + Sync, D: Disk>(
    rt: &R,
    alloc: Global,
    desk: &Desk<D>,
    seat: &mut DeskSeat<D>,
    lane: u32,
    workers: u32,
) -> Result<bool, Memory>
    requires own { seat.old.turn ≡ desk.now.turn }
    requires start { seat.old.start ≡ desk.now.value.start ∷ [] }
    ensures ran { PartRan D.Disk desk.now.value.start lane (Close ∷ Mark workers ∷ []) seat.old seat.new result }
    ensures same { SameSeat seat.old seat.new }
{
    match close(rt, desk, seat, lane) {
        Ok(Some(cut)) => mark_and_give(rt, alloc, desk, seat, lane, cut, workers),
        Ok(None) => Ok(false),
        Err(memory) => Err(memory),
    }
}

/// Closes the cut, unless that is refused.
fn close<W: Wait, D: Disk>(
    rt: &W,
    desk: &Desk<D>,
    seat: &mut DeskSeat<D>,
    lane: u32,
) -> Result<Option<ClosedCut>, Memory>
    requires own { seat.old.turn ≡ desk.now.turn }
    requires start { seat.old.start ≡ desk.now.value.start ∷ [] }
    ensures ran { ClosingRan D.Disk desk.now.value.start lane seat.old seat.new result }
    ensures same { SameSeat seat.old seat.new }
{
    match desk.close_cut(rt, seat, lane) {
        Ok((Ok(cut), _)) => Ok(Some(cut)),
        Ok((Err(_), _)) => Ok(None),
        Err(memory) => Err(memory),
    }
}

/// The marks of a closed cut, unless marking found no memory.
fn marks_of<R: Threads + Sync>(
    rt: &R,
    alloc: Global,
    cut: ClosedCut,
    workers: u32,
) -> Option<MarkedCut>
    ensures { IfSome result (λ marked. marked.cut ≡ cut) }
{
    match mark(rt, alloc, &OpenGate, cut, workers) {
        Ok(marked) => Some(marked),
        Err((_cut, _fault)) => None,
    }
}

/// Marks a closed cut, and gives it its marks; or none, where marking found no memory.
fn mark_and_give<R: Threads + Wait + Sync, D: Disk>(
    rt: &R,
    alloc: Global,
    desk: &Desk<D>,
    seat: &mut DeskSeat<D>,
    lane: u32,
    cut: ClosedCut,
    workers: u32,
) -> Result<bool, Memory>
    requires own { seat.old.turn ≡ desk.now.turn }
    requires start { seat.old.start ≡ desk.now.value.start ∷ [] }
    requires closing { HasClosing seat.old.seen cut }
    ensures ran { MarksRan D.Disk desk.now.value.start lane workers cut.number seat.old seat.new result }
    ensures same { SameSeat seat.old seat.new }
{
    let marked = marks_of(rt, alloc, cut, workers);
    match desk.give_marks(rt, seat, lane, workers, marked) {
        Ok((reply, _)) => Ok(!is_refused(&reply)),
        Err((_marked, memory)) => Err(memory),
    }
}
