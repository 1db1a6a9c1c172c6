//! Cuts all of whose objects are the first of their places, so that no place gets a second name.
ghost use Rattle.std.specs.Prelude.{◌≡◌, ◌+◌, ◌<◌, ◌≤◌, true, IfOk, IfSome};
ghost use Rattle.page_image.specs.Pages.{slot_at};
ghost use Rattle.cut_builder.specs.Young.{IsYoung, IsYoungCopy, IsYoungCut};

use crate::Cut;
use object_graph::{MOST_COUNTED, MOST_PAGES, MOST_SLOTS, Memory};
use page_image::{Page, PageCopy};
use std::alloc::Global;

fn is_young_slot(page: &Page, slot: u16) -> bool
    ensures { result ≡ true → (slot_at page.now slot).in_use ≡ true → (slot_at page.now slot).generation ≡ 1 }
{
    match page.object(slot) {
        Some(object) => object.name.generation() == 1,
        None => true,
    }
}

/// Whether all objects of a page are the first of their places.
fn is_young(page: &Page) -> bool
    ensures { result ≡ true → IsYoung page.now.slots }
{
    page.is_page();
    'slots: for slot in 0..MOST_SLOTS {
        if !is_young_slot(page, slot) {
            return false;
        }
    }
    true
}

fn is_young_before(copy: &PageCopy) -> bool
    ensures { result ≡ true → IfSome copy.now.before (λ p. (p.number ≡ copy.now.page) × IsYoung p.slots) }
{
    match &copy.before {
        Some(before) => before.number() == copy.page && is_young(before),
        None => true,
    }
}

fn is_young_copy(copy: &PageCopy, commits: u64) -> bool
    ensures { result ≡ true → IsYoungCopy copy.now commits }
{
    copy.moment == commits
        && copy.current.number() == copy.page
        && is_young(&copy.current)
        && is_young_before(copy)
}

/// A cut of so many pages after so many commits.
pub(crate) fn start(alloc: Global, pages: u32, commits: u64) -> Result<Cut, Memory>
    requires some { 0 < pages }
    requires few { pages ≤ MOST_PAGES }
    ensures { IfOk result (λ cut. IsYoungCut cut pages commits) }
{
    let cut = Cut::start(alloc, pages, 1, commits)?;
    Ok(cut)
}

/// Adds a copy where it can be added, and says whether it was.
pub(crate) fn add_copy(cut: &mut Cut, pages: u32, commits: u64, copy: &PageCopy) -> bool
    requires { IsYoungCut cut.old pages commits }
    ensures { IsYoungCut cut.new pages commits }
{
    if copy.page < pages && !cut.is_copied(copy.page) && is_young_copy(copy, commits) {
        cut.add_copy(copy);
        return true;
    }
    false
}

/// Adds the image of a page after the next commit where it can be added, and says whether it was.
pub(crate) fn add_after(cut: &mut Cut, pages: u32, commits: u64, image: &Page) -> bool
    requires young { IsYoungCut cut.old pages commits }
    requires few { commits < MOST_COUNTED }
    ensures { result ≡ true → IsYoungCut cut.new pages (commits + 1) }
{
    if image.number() < pages && is_young(image) {
        cut.add_after(image, commits + 1);
        return true;
    }
    false
}
