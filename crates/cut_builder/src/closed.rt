//! A cut that is closed: each page has a copy.
ghost use Rattle.std.specs.Prelude.{◌≡◌, ℕ, ◌<◌, ◌≤◌, Some, length, option_map};
ghost use Rattle.std.specs.Option.{option_copied};
ghost use Rattle.cut_model.specs.CutPages.{settled_image};
ghost use Rattle.cut_model.specs.Doomed.{AreMarks};
ghost use Rattle.cut_builder.specs.CutParts.{page_in_cut, image_of, as_page, cut_starts, marks_of, HasOneNameEach, AreCopied};
ghost use Rattle.cut_builder.specs.Kept.{AreClosed};

use crate::kept::KeptPages;
use crate::marked::MarkedCut;
use object_graph::{MOST_PAGES, SlotSet};
use page_image::Page;
use std::marker::Model;

/// A closed cut. Contracts see its number and what it has of each page, a copy of each among it.
#[derive(Drop)]
pub struct ClosedCut {
    number: u64,
    pages: KeptPages,
}

impl Model for ClosedCut {
    ghost use Rattle.cut_builder.specs.CutParts.{ClosedParts};
    ghost use Rattle.cut_builder.specs.Kept.{AreClosed};

    ghost Value = { ClosedParts };

    ghost view = { λ c. record { number = c.number; pages = c.pages } };

    ghost invariant = { λ c. AreClosed c.pages };
}

impl ClosedCut {
    pub(crate) fn of(number: u64, pages: KeptPages) -> ClosedCut
        requires { AreClosed pages }
        ensures { result ≡ record { number = number; pages = pages } }
    {
        ClosedCut { number, pages }
    }

    /// What each closed cut keeps, for those who rely on it: it does nothing else.
    pub fn is_closed(&self)
        ensures names { HasOneNameEach self.now.pages }
        ensures copied { AreCopied self.now.pages }
        ensures some { 0 < length self.now.pages }
        ensures few { length self.now.pages ≤ MOST_PAGES }
    {
        let _pages = &self.pages;
    }

    /// The number of the cut.
    pub fn number(&self) -> u64
        ensures { result ≡ self.now.number }
    {
        self.number
    }

    /// How many pages it has.
    #[inline(always)]
    pub fn pages(&self) -> u32
        ensures count { result ≡ length self.now.pages }
        ensures some { 0 < result }
        ensures few { result ≤ MOST_PAGES }
    {
        self.pages.count()
    }

    /// An image of a page, if it has it: 0 the current one, 1 the one before, 2 the one after.
    #[inline(always)]
    pub fn image(&self, page: u32, which: u32) -> Option<&Page>
        requires { page < length self.now.pages }
        ensures { option_copied result ≡ option_map (as_page page) (image_of (page_in_cut self.now.pages page) which) }
    {
        self.pages.image(page, which)
    }

    /// The image of a page that was committed as the cut closed.
    #[inline(always)]
    pub fn settled(&self, page: u32) -> &Page
        requires { page < length self.now.pages }
        ensures image { settled_image (page_in_cut self.now.pages page) ≡ Some result.now.slots }
        ensures number { result.now.number ≡ page }
    {
        self.pages.settled(page)
    }

    /// The slots of a page in which objects were made since the cut opened.
    #[inline(always)]
    pub fn born(&self, page: u32) -> SlotSet
        requires { page < length self.now.pages }
        ensures { result ≡ (page_in_cut self.now.pages page).born }
    {
        self.pages.born(page)
    }

    /// The cut with its marks, a set for each page.
    pub fn with_marks(self, marks: Vec<SlotSet>) -> MarkedCut
        requires count { length marks.items ≡ length self.pages }
        requires exact { AreMarks (cut_starts self) self.pages (marks_of marks.items) }
        ensures { result ≡ record { cut = self; marks = marks.items } }
    {
        MarkedCut::of(self, marks)
    }
}
