//! Images of pages, one a page at most.
ghost use Rattle.std.specs.Prelude.{◌≡◌, ◌<◌, ◌≤◌, Some, None, length, replicate, slice_index_or, slice_set, IfOk};
ghost use Rattle.std.specs.Option.{option_copied};
ghost use Rattle.cut_builder.specs.Cells.{place_of};

use object_graph::MOST_PAGES;
use page_image::Page;
use std::alloc::{AllocError, Global};
use std::marker::Model;

/// An image of a page, and after how many commits it stood.
#[derive(Clone, Copy)]
pub(crate) struct KeptImage {
    pub(crate) image: Page,
    pub(crate) moment: u64,
}

/// Where the image of a page lies among the images.
#[derive(Clone, Copy)]
enum Cell {
    Never,
    Holds(u32),
    Empty(u32),
}

impl Cell {
    /// The place that the page has had since its first image.
    fn place(self) -> Option<u32>
        ensures { result ≡ place_of self }
    {
        match self {
            Cell::Never => None,
            Cell::Holds(place) => Some(place),
            Cell::Empty(place) => Some(place),
        }
    }
}

/// At most one image of each page. Contracts see what stands at each page. Room for all images is
/// taken at the start, but images lie in it one after another as they come, so room that has none is
/// never written.
#[derive(Drop)]
pub(crate) struct Column {
    cells: Vec<Cell>,
    images: Vec<KeptImage>,
}

impl Model for Column {
    ghost use Rattle.std.specs.Prelude.{List, Option, length, vec_capacity};
    ghost use Rattle.cut_builder.specs.declared.column.KeptImage.{KeptImage};
    ghost use Rattle.cut_builder.specs.Cells.{at_cells, AreCells};

    ghost Value = { List (Option KeptImage) };

    ghost view = { λ c. at_cells c.images.items c.cells.items };

    ghost invariant = { λ c. AreCells (length c.images.items) (vec_capacity c.images) c.cells.items };
}

impl Column {
    /// So many pages without an image.
    pub(crate) fn start(alloc: Global, count: usize) -> Result<Column, AllocError>
        requires { count ≤ MOST_PAGES }
        ensures { IfOk result (λ column. column ≡ replicate count None) }
    {
        let cells = Vec::from_elem(alloc, Cell::Never, count)?;
        let images = Vec::with_capacity(alloc, count)?;
        Ok(Column { cells, images })
    }

    /// The image of a page.
    #[inline(always)]
    pub(crate) fn get(&self, page: u32) -> Option<&KeptImage>
        requires { page < length self.now }
        ensures { option_copied result ≡ slice_index_or self.now page None }
    {
        match self.cells[page as usize] {
            Cell::Holds(place) => Some(&self.images[place as usize]),
            _ => None,
        }
    }

    /// Puts an image of a page in place of what stands there.
    pub(crate) fn set(&mut self, page: u32, image: &Page, moment: u64)
        requires { page < length self.old }
        ensures { self.new ≡ slice_set self.old page (Some (record { image = image.now; moment = moment })) }
    {
        match self.cells[page as usize].place() {
            Some(place) => {
                self.images[place as usize] = KeptImage {
                    image: *image,
                    moment,
                };
                self.cells[page as usize] = Cell::Holds(place);
            }
            None => {
                let place = self.images.len() as u32;
                self.images.push_reserved(KeptImage {
                    image: *image,
                    moment,
                });
                self.cells[page as usize] = Cell::Holds(place);
            }
        }
    }

    /// Leaves a page without an image.
    pub(crate) fn clear(&mut self, page: u32)
        requires { page < length self.old }
        ensures { self.new ≡ slice_set self.old page None }
    {
        if let Some(place) = self.cells[page as usize].place() {
            self.cells[page as usize] = Cell::Empty(place);
        }
    }
}
