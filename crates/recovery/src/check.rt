//! Checking what a store's pages refer to.
ghost use Rattle.std.specs.Prelude.{◌≡◌, ℕ, Err, OnOk};
ghost use Rattle.image_model.specs.Opening.{page_slots};
ghost use Rattle.image_model.specs.Stores.{ArePages, IsRooted, HasFaultAt};

use crate::faults::PagesFault;
use crate::reached::{first_dangling, is_in_use};
use crate::sizes::ROOT_PLACE;
use object_graph::Name;
use page_image::Page;
use std::alloc::Global;

/// Tells whether the root is in use, and whether all that is reached from it refers to objects in
/// use; else the place of the root's slot, or the least place of a reference to what isn't in use.
/// The work is linear in the count of pages.
pub fn check_pages(alloc: Global, pages: &[Page]) -> Result<(), PagesFault>
    requires { ArePages pages.now }
    ensures rooted { OnOk result (IsRooted (page_slots pages.now)) }
    ensures damaged { (at : ℕ) → result ≡ Err (PagesFault.Damaged at) → HasFaultAt (page_slots pages.now) at }
{
    if !is_in_use(pages, &Name::root()) {
        return Err(PagesFault::Damaged { at: ROOT_PLACE });
    }
    match first_dangling(alloc, pages) {
        Ok(None) => Ok(()),
        Ok(Some(at)) => Err(PagesFault::Damaged { at }),
        Err(_) => Err(PagesFault::Memory),
    }
}
