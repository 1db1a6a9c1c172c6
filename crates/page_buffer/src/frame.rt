//! The two images of a page.
ghost use Rattle.std.specs.Prelude.{◌≡◌, ℕ, true, IsTrue};
ghost use Rattle.object_graph.specs.Slots.{has_slot};
ghost use Rattle.page_image.specs.Pages.{slot_at};
ghost use Rattle.page_buffer.specs.Frames.{clean_frame, freed_page};

use object_graph::SlotSet;
use page_image::Page;

/// The images of a page: `current` with what an open transaction wrote, and `before`, the committed
/// one. It is `dirty` from the first write until that is settled or reverted; a clean frame of a
/// buffer has equal images (ARCHITECTURE.md, "Frames").
#[derive(Clone, Copy, Debug, PartialEq, Eq)]
pub struct Frame {
    pub current: Page,
    pub before: Page,
    pub dirty: bool,
}

/// The frame of a committed page.
pub(crate) fn clean(page: &Page) -> Frame
    ensures { result ≡ clean_frame page.now }
{
    Frame {
        current: *page,
        before: *page,
        dirty: false,
    }
}

/// Frees slots of an image.
#[tactic(auto, using(crate::proofs::Frees::is_freed_page))]
pub(crate) fn free_in(image: &mut Page, slots: SlotSet)
    requires { (slot : ℕ) → IsTrue (has_slot slots slot) → (slot_at image.old slot).in_use ≡ true }
    ensures { image.new ≡ freed_page slots image.old }
{
    image.free_slots(slots);
}
