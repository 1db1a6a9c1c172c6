//! Which slots of a closed and marked cut a sweep frees.
#![tactic(auto)]

ghost use Rattle.std.specs.Prelude.{◌≡◌, ℕ, ◌<◌, ◌&&◌, not, Some, List, length};
ghost use Rattle.object_graph.specs.SlotParts.{SlotParts};
ghost use Rattle.object_graph.specs.Slots.{has_slot};
ghost use Rattle.cut_model.specs.CutPages.{settled_image};
ghost use Rattle.cut_model.specs.Doomed as rule;
ghost use Rattle.cut_builder.specs.CutParts.{page_in_cut, cut_starts, marks_of, HasExactMarks};

use cut_builder::MarkedCut;
use object_graph::SlotSet;

/// The slots of a page that are in use in its settled image and neither born nor marked: exactly
/// those of the page's doomed names.
pub fn doomed(marked: &MarkedCut, page: u32) -> SlotSet
    requires { page < length marked.now.cut.pages }
    ensures doomed { (image : List SlotParts) → settled_image (page_in_cut marked.now.cut.pages page) ≡ Some image → (slot : ℕ) → has_slot result slot ≡ rule.is_doomed image (page_in_cut marked.now.cut.pages page).born (marks_of marked.now.marks page) slot }
    ensures names { rule.AreDoomedOn (cut_starts marked.now.cut) marked.now.cut.pages page result }
    ensures exact { HasExactMarks marked.now }
{
    let cut = marked.cut();
    cut.is_closed();
    let image = cut.settled(page);
    image.is_page();
    doomed_among(image.used(), cut.born(page), marked.marks(page))
}

/// The slots that are doomed, by what is in use, born and marked.
fn doomed_among(used: SlotSet, born: SlotSet, marked: SlotSet) -> SlotSet
    ensures { (slot : ℕ) → has_slot result slot ≡ (has_slot used slot && (not (has_slot born slot) && not (has_slot marked slot))) }
{
    used.without(born).without(marked)
}
