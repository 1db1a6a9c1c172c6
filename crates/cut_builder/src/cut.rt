//! A cut while it is copied.
ghost use Rattle.std.specs.Prelude.{◌≡◌, ℕ, ◌<◌, ◌≤◌, ◌||◌, false, length, replicate, IfErr, IfNone, IfOk, IfSome};
ghost use Rattle.std.specs.Option.{is_some};
ghost use Rattle.object_graph.specs.Slots.{has_slot};
ghost use Rattle.cut_model.specs.CutPages.{bare_page, with_copy, with_commit, with_born};
ghost use Rattle.cut_builder.specs.CutParts.{page_in_cut, with_cut_page, copied_of, IsOfItsPage, HasOneNameEach, IsLater, AreCopied, IsFirstUncopied};

use crate::closed::ClosedCut;
use crate::kept::KeptPages;
use object_graph::{MOST_PAGES, Memory, SlotSet};
use page_image::{Page, PageCopy};
use std::alloc::Global;
use std::marker::Model;

/// A cut while its pages are copied. Contracts see its number, the number of commits as it opened,
/// and what it has of each page. After `start` no call takes memory (ARCHITECTURE.md, "Cuts").
#[derive(Drop)]
pub struct Cut {
    number: u64,
    start: u64,
    pages: KeptPages,
}

impl Model for Cut {
    ghost use Rattle.cut_builder.specs.CutParts.{CutParts};
    ghost use Rattle.cut_builder.specs.Kept.{AreKept};

    ghost Value = { CutParts };

    ghost view = { λ c. record { number = c.number; start = c.start; pages = c.pages } };

    ghost invariant = { λ c. AreKept c.pages };
}

/// The least page that has no copy yet.
#[derive(Clone, Copy, Debug, PartialEq, Eq)]
pub struct Uncopied {
    pub page: u32,
}

impl Cut {
    /// A cut of so many pages with nothing copied, of this number and with so many commits so far.
    /// It takes all the memory of the cut at once.
    pub fn start(alloc: Global, pages: u32, number: u64, moment: u64) -> Result<Cut, Memory>
        requires some { 0 < pages }
        requires few { pages ≤ MOST_PAGES }
        ensures { IfOk result (λ cut. cut ≡ record { number = number; start = moment; pages = replicate pages bare_page }) }
    {
        let pages = KeptPages::start(alloc, pages as usize)?;
        Ok(Cut {
            number,
            start: moment,
            pages,
        })
    }

    /// What each cut keeps, for those who rely on it: it does nothing else.
    pub fn is_named_once(&self)
        ensures names { HasOneNameEach self.now.pages }
        ensures some { 0 < length self.now.pages }
        ensures few { length self.now.pages ≤ MOST_PAGES }
    {
        let _pages = &self.pages;
    }

    /// Adds the copy of a page that has none. An after-image stays only where it is later than the
    /// copy.
    pub fn add_copy(&mut self, copy: &PageCopy)
        requires page { copy.now.page < length self.old.pages }
        requires uncopied { is_some (page_in_cut self.old.pages copy.now.page).copy ≡ false }
        requires moment { self.old.start ≤ copy.now.moment }
        requires images { IsOfItsPage copy.now }
        requires names { HasOneNameEach (with_cut_page self.old copy.now.page (with_copy (copied_of copy.now) (page_in_cut self.old.pages copy.now.page))).pages }
        ensures { self.new ≡ with_cut_page self.old copy.now.page (with_copy (copied_of copy.now) (page_in_cut self.old.pages copy.now.page)) }
    {
        self.pages.add_copy(copy);
    }

    /// Whether the page has a copy.
    pub fn is_copied(&self, page: u32) -> bool
        requires { page < length self.now.pages }
        ensures { result ≡ is_some (page_in_cut self.now.pages page).copy }
    {
        self.pages.is_copied(page)
    }

    /// Adds the image of a page after the commit of this number. It takes the place of an earlier
    /// after-image.
    pub fn add_after(&mut self, image: &Page, moment: u64)
        requires page { image.now.number < length self.old.pages }
        requires moment { IsLater moment (page_in_cut self.old.pages image.now.number) }
        requires names { let p = page_in_cut self.old.pages image.now.number in HasOneNameEach (with_cut_page self.old image.now.number (with_commit image.now.slots moment p.born p)).pages }
        ensures { let p = page_in_cut self.old.pages image.now.number in self.new ≡ with_cut_page self.old image.now.number (with_commit image.now.slots moment p.born p) }
    {
        self.pages.add_after(image, moment);
    }

    /// Adds slots of a page in which objects were made since the cut opened.
    pub fn add_born(&mut self, page: u32, slots: SlotSet)
        requires { page < length self.old.pages }
        ensures cut { self.new ≡ with_cut_page self.old page (with_born (page_in_cut self.new.pages page).born (page_in_cut self.old.pages page)) }
        ensures born { (s : ℕ) → has_slot (page_in_cut self.new.pages page).born s ≡ (has_slot (page_in_cut self.old.pages page).born s || has_slot slots s) }
    {
        self.pages.add_born(page, slots);
    }

    /// Closes the cut. Where a page has no copy yet the cut comes back, with the least such page.
    pub fn close(self) -> Result<ClosedCut, (Cut, Uncopied)>
        ensures closed { IfOk result (λ cut. cut ≡ record { number = self.number; pages = self.pages }) }
        ensures copied { IfOk result (λ _. AreCopied self.pages) }
        ensures back { IfErr result (λ e. e.0 ≡ self) }
        ensures uncopied { IfErr result (λ e. IsFirstUncopied self.pages e.1.page) }
    {
        if let Some(page) = first_uncopied(&self.pages) {
            return Err((self, Uncopied { page }));
        }
        let Cut {
            number,
            start: _,
            pages,
        } = self;
        Ok(ClosedCut::of(number, pages))
    }
}

/// The least page without a copy.
fn first_uncopied(pages: &KeptPages) -> Option<u32>
    requires { length pages.now ≤ MOST_PAGES }
    ensures some { IfSome result (λ page. IsFirstUncopied pages.now page) }
    ensures none { IfNone result (AreCopied pages.now) }
{
    for page in 0..pages.count() {
        if !pages.is_copied(page) {
            return Some(page);
        }
    }
    None
}
