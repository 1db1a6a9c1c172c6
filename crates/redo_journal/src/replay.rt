//! The last image of each page that an area's records name.
ghost use Rattle.std.specs.Prelude.{◌≤◌, ◌<◌, ℕ, [], ◌∷◌, length, slice_index, OnOk};
ghost use Rattle.redo_journal.specs.Record.{numbers_of};
ghost use Rattle.redo_journal.specs.Replays.{AreLatest, IsLaidOver};

use object_graph::Memory;
use page_image::Page;

/// What an area's records say: the number of commits before them, the commits among them, and the
/// last image of each page that they name, pages ascending.
#[derive(Drop)]
pub struct Replay {
    pub base: u64,
    pub commits: u64,
    pub images: Vec<Page>,
}

/// The place of the first image whose number isn't below this one.
fn place_of(images: &[Page], number: u32) -> usize
    ensures bound { result ≤ length images.now }
    ensures before { (i : ℕ) → i < result → slice_index (numbers_of images.now) i < number }
    ensures from { result < length images.now → number ≤ slice_index (numbers_of images.now) result }
{
    for at in 0..images.len() {
        if images[at].number() >= number {
            return at;
        }
    }
    images.len()
}

/// Puts an image in the place of the one of its page, or where its number belongs.
pub(crate) fn lay(images: &mut Vec<Page>, image: Page, pages: u32) -> Result<(), Memory>
    requires kept { AreLatest pages images.old.items }
    requires below { image.number < pages }
    ensures kept { OnOk result (AreLatest pages images.new.items) }
    ensures laid { OnOk result (IsLaidOver (image ∷ []) images.old.items images.new.items) }
{
    let at = place_of(images, image.number());
    if at < images.len() && images[at].number() == image.number() {
        images[at] = image;
        return Ok(());
    }
    images.insert(at, image)?;
    Ok(())
}
