//! What no clause says: that a cut is made. And cuts of the worked examples up to their closing.
mod young;

ghost use Rattle.std.specs.Prelude.{◌≡◌, ◌<◌};

use crate::tests::young::{add_after, add_copy, start};
use crate::{Cut, Uncopied};
use object_graph::{MOST_PAGES, Name, ROOT, SlotSet};
use page_image::{Page, PageCopy};
use std::test::Fail;

#[test]
fn a_cut_is_made_and_refused_while_nothing_is_copied(rt: HostRuntime) -> Result<(), Fail> {
    for pages in [1, 2, MOST_PAGES] {
        let cut = Cut::start(rt.alloc(), pages, 7, 3)?;
        assert!(rt; !cut.is_copied(pages - 1));
        let Err((mut cut, uncopied)) = cut.close() else {
            panic!(rt; "nothing is copied")
        };
        assert_eq!(rt; uncopied, Uncopied { page: 0 });
        cut.add_born(0, SlotSet::empty().with(3));
        assert!(rt; cut.close().is_err());
    }
    Ok(())
}

/// A page with one object in its first slot, with this reference, if there is room.
fn page_with(number: u32, target: Option<Name>) -> Page
    requires { number < MOST_PAGES }
    ensures { result.number ≡ number }
{
    let mut page = Page::empty(number);
    if page.take_slot().is_ok() {
        if page.object(0).is_some() {
            page.set_ref(0, 0, target);
        }
    }
    page
}

/// The copy of a page, after so many commits.
fn copy_of(current: Page, before: Option<Page>, moment: u64) -> PageCopy {
    PageCopy {
        page: current.number(),
        current,
        before,
        moment,
        cut: 1,
        seen: 0,
    }
}

#[test]
fn a_page_is_missing_until_each_is_copied(rt: HostRuntime) -> Result<(), Fail> {
    let mut cut = start(rt.alloc(), 4, 0)?;
    for page in [0, 1, 2] {
        let copy = copy_of(page_with(page, None), None, 0);
        assert!(rt; add_copy(&mut cut, 4, 0, &copy));
        assert!(rt; !add_copy(&mut cut, 4, 0, &copy));
    }
    let Err((mut cut, uncopied)) = cut.close() else {
        panic!(rt; "page 3 has no copy")
    };
    assert_eq!(rt; uncopied, Uncopied { page: 3 });
    assert!(rt; cut.is_copied(2) && !cut.is_copied(3));
    assert!(rt; add_copy(&mut cut, 4, 0, &copy_of(page_with(3, None), None, 0)));
    assert!(rt; cut.close().is_ok());
    Ok(())
}

#[test]
fn a_dirty_copy_settles_as_it_was_committed(rt: HostRuntime) -> Result<(), Fail> {
    let committed = page_with(0, Some(ROOT));
    let dirty = page_with(0, None);
    let mut cut = start(rt.alloc(), 1, 1)?;
    let copy = copy_of(dirty, Some(committed), 1);
    assert!(rt; add_copy(&mut cut, 1, 1, &copy));
    let Ok(closed) = cut.close() else {
        panic!(rt; "each page is copied")
    };
    assert!(rt; *closed.settled(0) == committed);
    assert!(rt; closed.image(0, 0) == Some(&dirty));
    assert!(rt; closed.image(0, 1) == Some(&committed));
    assert!(rt; closed.image(0, 2).is_none());
    Ok(())
}

#[test]
fn a_page_changed_after_its_copy_settles_as_it_was_changed(rt: HostRuntime) -> Result<(), Fail> {
    let copied = page_with(0, None);
    let changed = page_with(0, Some(ROOT));
    let other = page_with(1, None);
    let mut cut = start(rt.alloc(), 2, 1)?;
    assert!(rt; add_copy(&mut cut, 2, 1, &copy_of(copied, None, 1)));
    if !add_after(&mut cut, 2, 1, &changed) {
        panic!(rt; "the page can be added")
    }
    if !add_after(&mut cut, 2, 2, &page_with(1, Some(ROOT))) {
        panic!(rt; "the page can be added")
    }
    cut.add_born(0, SlotSet::empty().with(3));
    cut.add_born(0, SlotSet::empty().with(5));
    assert!(rt; add_copy(&mut cut, 2, 3, &copy_of(other, None, 3)));
    let Ok(closed) = cut.close() else {
        panic!(rt; "each page is copied")
    };
    assert_eq!(rt; closed.number(), 1);
    assert_eq!(rt; closed.pages(), 2);
    assert!(rt; *closed.settled(0) == changed);
    assert!(rt; closed.image(0, 0) == Some(&copied));
    assert!(rt; closed.image(0, 2) == Some(&changed));
    assert!(rt; *closed.settled(1) == other);
    assert!(rt; closed.image(1, 2).is_none());
    assert_eq!(rt; closed.born(0), SlotSet::empty().with(3).with(5));
    Ok(())
}
