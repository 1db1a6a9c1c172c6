//! Where the images of counted records stand.
ghost use Rattle.std.specs.Prelude.{◌≡◌, ◌≤◌, ◌+◌, ◌*◌, ◌++◌, length, vec_capacity};
ghost use Rattle.redo_journal.specs.Places.{has_place, places_of};

use crate::sizes::{HOMES_START, IMAGE_SIZE};
use page_image::Page;

/// The number of a page, and where an image of it stands in the store file.
#[derive(Clone, Copy)]
pub(crate) struct ImagePlace {
    pub(crate) page: u32,
    pub(crate) at: u64,
}

/// Whether an image of this page stands at one of the places.
pub(crate) fn has_page(places: &[ImagePlace], page: u32) -> bool
    ensures { result ≡ has_place places.now page }
{
    places.iter().any(|place| place.page == page)
}

/// Notes where images stand one behind the other, the first of them with its page's number at this
/// place.
pub(crate) fn note(places: &mut Vec<ImagePlace>, images: &[Page], from: u64)
    requires room { length places.old.items + length images.now ≤ vec_capacity places.old }
    requires within { from + IMAGE_SIZE * length images.now ≤ HOMES_START }
    ensures noted { places.new.items ≡ places.old.items ++ places_of from images.now }
    ensures reserved { vec_capacity places.new ≡ vec_capacity places.old }
{
    for i in 0..images.len() {
        places.push_reserved(ImagePlace {
            page: images[i].number(),
            at: from + (IMAGE_SIZE * i) as u64 + 4,
        });
    }
}
