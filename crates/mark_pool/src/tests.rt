//! Marks of small cuts, by several workers.
mod young;

ghost use Rattle.std.specs.Prelude.{◌≡◌, ◌<◌, ◌≤◌};
ghost use Rattle.cut_builder.specs.Young.{IsYoungCut};

use crate::tests::young::{add, add_after, start};
use crate::{MarkFault, mark};
use cut_builder::{ClosedCut, Cut, MarkedCut};
use disk_trait::{MeetGate, OpenGate};
use object_graph::{MOST_PAGES, MOST_SLOTS, Memory, Name};
use page_image::{Page, PageCopy};
use std::alloc::Global;
use std::process::Abort;
use std::test::Fail;
use std::thread::Threads;

/// A page with so many objects.
fn page_with(number: u32, objects: u32) -> Page
    requires { number < MOST_PAGES }
{
    let mut page = Page::empty(number);
    for _ in 0..objects {
        let _ = page.take_slot();
    }
    page
}

/// Sets a reference of an object that is there.
fn link(page: &mut Page, slot: u16, field: u32, target: Option<Name>) {
    if let Some(object) = page.object(slot) {
        if (field as usize) < object.refs.len() {
            page.set_ref(slot, field, target);
        }
    }
}

fn copy_of(current: Page, before: Option<Page>) -> PageCopy {
    PageCopy {
        page: current.number(),
        current,
        before,
        moment: 0,
        cut: 1,
        seen: 0,
    }
}

/// Adds a page as it stands, without uncommitted writes.
fn add_clean(cut: &mut Cut, pages: u32, page: &Page)
    requires { IsYoungCut cut.old pages 0 }
    ensures { IsYoungCut cut.new pages 0 }
{
    add(cut, pages, &copy_of(*page, None));
}

/// Three pages: the root refers to 1.0.1, and this to 2.0.1. Page 0 was copied before a commit that
/// took both references away, and has its after-image.
fn unlinked_after_the_copy(alloc: Global) -> Result<Option<ClosedCut>, Memory> {
    let mut root = page_with(0, 1);
    link(&mut root, 0, 0, Some(Name::at(1, 0, 1)));
    let mut middle = page_with(1, 2);
    link(&mut middle, 0, 3, Some(Name::at(2, 0, 1)));
    let mut cut = start(alloc, 3)?;
    add_clean(&mut cut, 3, &root);
    add_clean(&mut cut, 3, &middle);
    add_clean(&mut cut, 3, &page_with(2, 2));
    add_after(&mut cut, 3, &page_with(0, 1));
    Ok(cut.close().ok())
}

/// Three pages: a transaction has moved a reference to 2.0.1 from 1.0.1 to the root, and nothing is
/// committed yet.
fn moved_in_dirty_copies(alloc: Global) -> Result<Option<ClosedCut>, Memory> {
    let mut root = page_with(0, 1);
    link(&mut root, 0, 0, Some(Name::at(1, 0, 1)));
    let mut moved = root;
    link(&mut moved, 0, 1, Some(Name::at(2, 0, 1)));
    let mut middle = page_with(1, 2);
    let emptied = middle;
    link(&mut middle, 0, 0, Some(Name::at(2, 0, 1)));
    let mut cut = start(alloc, 3)?;
    add(&mut cut, 3, &copy_of(moved, Some(root)));
    add(&mut cut, 3, &copy_of(emptied, Some(middle)));
    add_clean(&mut cut, 3, &page_with(2, 2));
    Ok(cut.close().ok())
}

/// Two pages, with references to names that aren't in use: to a later object of a slot, to a free slot
/// and to a page that isn't there.
fn linked_to_nothing(alloc: Global) -> Result<Option<ClosedCut>, Memory> {
    let mut root = page_with(0, 1);
    link(&mut root, 0, 0, Some(Name::at(1, 0, 2)));
    link(&mut root, 0, 1, Some(Name::at(1, 7, 1)));
    link(&mut root, 0, 2, Some(Name::at(2, 0, 1)));
    let mut cut = start(alloc, 2)?;
    add_clean(&mut cut, 2, &root);
    add_clean(&mut cut, 2, &page_with(1, 2));
    Ok(cut.close().ok())
}

/// How the objects of `linked` refer to one another.
#[derive(Clone, Copy)]
enum Shape {
    /// Each to the next one.
    Chain,
    /// Each to the four below it.
    Tree,
    /// Each to the next but one, and the last two to the first two: two cycles, of which the root refers to
    /// one.
    Cycles,
}

/// How many objects `linked` has beside the root.
const OBJECTS: u32 = 300;

/// The name of one of these objects, as many to a page as it has slots, from page 1 on.
fn link_at(place: u32) -> Name
    requires { place ≤ 300 }
{
    Name::at(1 + place / 20, (place % 20) as u16, 1)
}

/// To what an object refers in a field.
fn target(shape: Shape, place: u32, field: u32) -> Option<Name>
    requires place { place < 300 }
    requires field { field < 4 }
{
    match shape {
        Shape::Chain if field == 2 => Some(link_at(place + 1)),
        Shape::Tree if 4 * place + field + 1 < OBJECTS => Some(link_at(4 * place + field + 1)),
        Shape::Cycles if field == 1 => Some(link_at((place + 2) % OBJECTS)),
        _ => None,
    }
}

/// Sets the references of an object.
fn link_all(page: &mut Page, slot: u16, shape: Shape, place: u32)
    requires { place < 300 }
{
    for field in 0..4 {
        link(page, slot, field, target(shape, place, field));
    }
}

/// A page of these objects.
fn linked_page(shape: Shape, number: u32) -> Page
    requires some { 1 ≤ number }
    requires few { number < 16 }
{
    let mut page = page_with(number, 20);
    for slot in 0..20 {
        link_all(&mut page, slot, shape, (number - 1) * 20 + u32::from(slot));
    }
    page
}

/// Sixteen pages with the root, which refers to the first of 300 objects.
fn linked(alloc: Global, shape: Shape) -> Result<Option<ClosedCut>, Memory> {
    let mut root = page_with(0, 1);
    link(&mut root, 0, 0, Some(link_at(0)));
    let mut cut = start(alloc, 16)?;
    add_clean(&mut cut, 16, &root);
    'pages: for number in 1..16 {
        add_clean(&mut cut, 16, &linked_page(shape, number));
    }
    Ok(cut.close().ok())
}

/// The marked places, pages and slots ascending.
fn places_of(alloc: Global, marked: &MarkedCut) -> Result<Vec<(u32, u16)>, Fail> {
    let mut places = Vec::new(alloc);
    for page in 0..marked.cut().pages() {
        let marks = marked.marks(page);
        for slot in 0..MOST_SLOTS {
            if marks.has(slot) {
                places.push((page, slot))?;
            }
        }
    }
    Ok(places)
}

/// The marks of a cut by so many workers.
fn marks_by<R: AllocGlobal + Threads + Sync + Abort>(
    rt: &R,
    cut: Option<ClosedCut>,
    workers: u32,
) -> Result<Vec<(u32, u16)>, Fail> {
    let Some(cut) = cut else {
        panic!(rt; "a page has no copy")
    };
    match mark(rt, rt.alloc(), &OpenGate, cut, workers) {
        Ok(marked) => places_of(rt.alloc(), &marked),
        Err((_cut, fault)) => panic!(rt; "{fault:?}"),
    }
}

const WORKERS: [u32; 3] = [1, 2, 16];

#[test]
fn what_any_image_refers_to_is_marked(rt: HostRuntime) -> Result<(), Fail> {
    let alloc = rt.alloc();
    for workers in WORKERS {
        let unlinked = marks_by(&rt, unlinked_after_the_copy(alloc)?, workers)?;
        assert_eq!(rt; unlinked.as_slice(), [(0, 0), (1, 0), (2, 0)].as_slice());
        let moved = marks_by(&rt, moved_in_dirty_copies(alloc)?, workers)?;
        assert_eq!(rt; moved.as_slice(), [(0, 0), (1, 0), (2, 0)].as_slice());
    }
    Ok(())
}

#[test]
fn names_that_are_not_in_use_are_not_marked(rt: HostRuntime) -> Result<(), Fail> {
    for workers in WORKERS {
        let marks = marks_by(&rt, linked_to_nothing(rt.alloc())?, workers)?;
        assert_eq!(rt; marks.as_slice(), [(0, 0)].as_slice());
    }
    Ok(())
}

#[test]
fn chains_and_trees_are_marked_to_their_ends(rt: HostRuntime) -> Result<(), Fail> {
    for workers in WORKERS {
        for shape in [Shape::Chain, Shape::Tree] {
            let marks = marks_by(&rt, linked(rt.alloc(), shape)?, workers)?;
            assert_eq!(rt; marks.len(), 301);
        }
    }
    Ok(())
}

#[test]
fn of_two_cycles_the_one_that_is_reached_is_marked(rt: HostRuntime) -> Result<(), Fail> {
    for workers in WORKERS {
        let marks = marks_by(&rt, linked(rt.alloc(), Shape::Cycles)?, workers)?;
        assert_eq!(rt; marks.len(), 151);
        assert!(rt; marks.iter().all(|&(_, slot)| slot % 2 == 0));
    }
    Ok(())
}

#[test]
fn two_workers_meet(rt: HostRuntime) -> Result<(), Fail> {
    let gate = MeetGate::new(2, 10_000_000);
    let cut = linked(rt.alloc(), Shape::Chain)?.ok_or("a page has no copy")?;
    let marked = mark(&rt, rt.alloc(), &gate, cut, 2);
    assert!(rt; marked.is_ok());
    assert!(rt; gate.met());
    Ok(())
}

#[test]
fn no_worker_and_seventeen_are_refused(rt: HostRuntime) -> Result<(), Fail> {
    let mut cut = linked(rt.alloc(), Shape::Chain)?.ok_or("a page has no copy")?;
    for workers in [0, 17] {
        let Err((back, fault)) = mark(&rt, rt.alloc(), &OpenGate, cut, workers) else {
            panic!(rt; "{workers} workers")
        };
        assert_eq!(rt; fault, MarkFault::BadWorkers);
        cut = back;
    }
    assert_eq!(rt; marks_by(&rt, Some(cut), 16)?.len(), 301);
    Ok(())
}
