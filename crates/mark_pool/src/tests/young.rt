//! Cuts all of whose objects are the first of their slots, so that no place gets a second name.
ghost use Rattle.std.specs.Prelude.{◌≡◌, ◌<◌, ◌≤◌, true, length, IfOk, IfSome};
ghost use Rattle.page_image.specs.Pages.{slot_at};
ghost use Rattle.cut_builder.specs.Young.{IsYoung, IsYoungCopy, IsYoungCut};

use cut_builder::Cut;
use object_graph::{MOST_PAGES, Memory, SLOTS_PER_PAGE};
use page_image::{Page, PageCopy};
use std::alloc::Global;

fn is_young_slot(page: &Page, slot: u16) -> bool
    requires { slot < length page.now.slots }
    ensures { result ≡ true → (slot_at page.now slot).in_use ≡ true → (slot_at page.now slot).generation ≡ 1 }
{
    page.object(slot).is_none() || page.generation(slot) == 1
}

/// Whether all objects of a page are the first of their slots.
fn is_young(page: &Page) -> bool
    ensures { result ≡ true → IsYoung page.now.slots }
{
    page.is_page();
    'slots: for slot in 0..SLOTS_PER_PAGE as u16 {
        if !is_young_slot(page, slot) {
            return false;
        }
    }
    true
}

fn is_young_before(copy: &PageCopy) -> bool
    ensures { result ≡ true → IfSome copy.now.before (λ p. (p.number ≡ copy.now.page) × IsYoung p.slots) }
{
    match &copy.before {
        Some(before) => before.number() == copy.page && is_young(before),
        None => true,
    }
}

fn is_young_copy(copy: &PageCopy) -> bool
    ensures { result ≡ true → IsYoungCopy copy.now 0 }
{
    copy.moment == 0
        && copy.current.number() == copy.page
        && is_young(&copy.current)
        && is_young_before(copy)
}

/// A cut of so many pages before the first commit.
pub(crate) fn start(alloc: Global, pages: u32) -> Result<Cut, Memory>
    requires some { 0 < pages }
    requires few { pages ≤ MOST_PAGES }
    ensures { IfOk result (λ cut. IsYoungCut cut pages 0) }
{
    let cut = Cut::start(alloc, pages, 1, 0)?;
    Ok(cut)
}

/// Adds a copy, if it can be added.
pub(crate) fn add(cut: &mut Cut, pages: u32, copy: &PageCopy)
    requires { IsYoungCut cut.old pages 0 }
    ensures { IsYoungCut cut.new pages 0 }
{
    if copy.page < pages && !cut.is_copied(copy.page) && is_young_copy(copy) {
        cut.add_copy(copy);
    }
}

/// Adds the image of a page after the first commit, if it can be added.
pub(crate) fn add_after(cut: &mut Cut, pages: u32, image: &Page)
    requires { IsYoungCut cut.old pages 0 }
{
    if image.number() < pages && is_young(image) {
        cut.add_after(image, 1);
    }
}
