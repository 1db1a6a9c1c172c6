//! Marking the targets of a place.
ghost use Rattle.std.specs.Prelude.{◌≡◌, ℕ, ◌<◌, ◌||◌, true, length};
ghost use Rattle.std.specs.List.{All};
ghost use Rattle.object_graph.specs.NameParts.{NameParts};
ghost use Rattle.object_graph.specs.Graphs.{has_object, is_to};
ghost use Rattle.page_image.specs.Pages.{slot_at};
ghost use Rattle.cut_model.specs.CutPages.{cut_graph};
ghost use Rattle.cut_builder.specs.CutParts.{page_in_cut, image_of, HasOneNameEach};
ghost use Rattle.mark_pool.specs.Edges.{IsMarkAt};
ghost use Rattle.mark_pool.specs.Marks.{all_parts, times};
ghost use Rattle.mark_pool.specs.Seats.{IsSeatOf};
ghost use Rattle.mark_pool.specs.Walks.{AreMarked, AreSeen, IsFollowed, IsListed, IsTidy, MarksMore, Scans, Works, is_used_name};

use crate::place::Place;
use crate::table::{MarkSeat, MarkTable};
use crate::words::is_clear;
use cut_builder::ClosedCut;
use object_graph::{MOST_SLOTS, Name, OBJECT_FIELDS};
use page_image::Page;

/// Whether a name is in use in an image of its page.
#[inline(always)]
fn is_in_image(cut: &ClosedCut, name: &Name, which: u32) -> bool
    requires { name.now.page < length cut.now.pages }
    ensures { result ≡ is_used_name name.now (image_of (page_in_cut cut.now.pages name.now.page) which) }
{
    match cut.image(name.page(), which) {
        Some(image) => image.has(*name),
        None => false,
    }
}

/// Whether a name is in use in one of the images of its page.
#[inline(always)]
fn is_on_page(cut: &ClosedCut, name: &Name) -> bool
    requires { name.now.page < length cut.now.pages }
    ensures { let p = page_in_cut cut.now.pages name.now.page in result ≡ (is_used_name name.now (image_of p 0) || (is_used_name name.now (image_of p 1) || is_used_name name.now (image_of p 2))) }
{
    if is_in_image(cut, name, 0) {
        return true;
    }
    if is_in_image(cut, name, 1) {
        return true;
    }
    is_in_image(cut, name, 2)
}

/// Whether a name is in use in some image of the cut.
#[inline(always)]
pub(crate) fn is_in_use(cut: &ClosedCut, name: &Name) -> bool
    ensures { result ≡ has_object (cut_graph cut.now.pages) name.now }
{
    if cut.pages() <= name.page() {
        return false;
    }
    is_on_page(cut, name)
}

/// Adds a place where the list has room.
#[inline(always)]
fn add(list: &mut Vec<Place>, page: u32, slot: u16, cut: &ClosedCut)
    requires listed { All (IsListed cut.now) list.old.items }
    requires new { IsListed cut.now (record { page = page; slot = slot }) }
    ensures { All (IsListed cut.now) list.new.items }
{
    if list.len() < list.capacity() {
        let _ = list.push(Place { page, slot });
    }
}

/// Whether a place is one of the cut's and marked already.
#[inline(always)]
fn is_marked(table: &MarkTable, cut: &ClosedCut, seat: &mut MarkSeat, page: u32, slot: u16) -> bool
    requires cut { table.now.cut ≡ cut.now }
    requires own { IsSeatOf table.now seat.old }
    requires slot { slot < MOST_SLOTS }
    ensures more { MarksMore seat.old seat.new }
    ensures seen { result ≡ true → 0 < times page slot seat.new.seen }
{
    if cut.pages() <= page {
        return false;
    }
    let word = seat.marks(table, page);
    !is_clear(word, slot)
}

/// Marks the target of a reference that is in use in the cut, and lists it where it is new and the
/// list has room. What is marked already isn't looked for in the images.
#[inline(always)]
fn follow(
    table: &MarkTable,
    cut: &ClosedCut,
    seat: &mut MarkSeat,
    list: &mut Vec<Place>,
    target: &Option<Name>,
)
    requires cut { table.now.cut ≡ cut.now }
    requires own { IsSeatOf table.now seat.old }
    requires marked { (to : NameParts) → is_to to target.now ≡ true → has_object (cut_graph cut.now.pages) to ≡ true → IsMarkAt cut.now to.page to.slot }
    requires listed { All (IsListed cut.now) list.old.items }
    ensures more { MarksMore seat.old seat.new }
    ensures seen { (to : NameParts) → is_to to target.now ≡ true → has_object (cut_graph cut.now.pages) to ≡ true → 0 < times to.page to.slot seat.new.seen }
    ensures listed { All (IsListed cut.now) list.new.items }
{
    let Some(name) = target else { return };
    let page = name.page();
    let slot = name.slot();
    if is_marked(table, cut, seat, page, slot) {
        return;
    }
    if !is_in_use(cut, name) {
        return;
    }
    if seat.claim(table, page, slot) {
        add(list, page, slot, cut);
    }
}

/// Marks the targets of the references in a slot of an image.
#[inline(always)]
fn follow_all(
    table: &MarkTable,
    cut: &ClosedCut,
    seat: &mut MarkSeat,
    list: &mut Vec<Place>,
    image: &Page,
    slot: u16,
)
    requires cut { table.now.cut ≡ cut.now }
    requires own { IsSeatOf table.now seat.old }
    requires marked { AreMarked cut.now (slot_at image.now slot).refs }
    requires listed { All (IsListed cut.now) list.old.items }
    ensures more { MarksMore seat.old seat.new }
    ensures seen { AreSeen cut.now (slot_at image.now slot).refs seat.new.seen }
    ensures listed { All (IsListed cut.now) list.new.items }
{
    image.is_page();
    'fields: for field in 0..OBJECT_FIELDS as u32 {
        follow(table, cut, seat, list, &image.reference(slot, field));
    }
}

/// Marks the targets of what is at a place, in one image of its page.
#[inline(always)]
fn follow_image(
    table: &MarkTable,
    cut: &ClosedCut,
    seat: &mut MarkSeat,
    list: &mut Vec<Place>,
    at: &Place,
    which: u32,
)
    requires cut { table.now.cut ≡ cut.now }
    requires own { IsSeatOf table.now seat.old }
    requires names { HasOneNameEach cut.now.pages }
    requires at { IsListed cut.now at.now }
    requires listed { All (IsListed cut.now) list.old.items }
    ensures more { MarksMore seat.old seat.new }
    ensures followed { IsFollowed cut.now at.now.page at.now.slot which seat.new.seen }
    ensures listed { All (IsListed cut.now) list.new.items }
{
    let Some(image) = cut.image(at.page, which) else {
        return;
    };
    image.is_page();
    follow_all(table, cut, seat, list, image, at.slot);
}

/// Marks all targets of a place that the seat took, and says that it is scanned.
#[inline(always)]
fn scan(table: &MarkTable, cut: &ClosedCut, seat: &mut MarkSeat, list: &mut Vec<Place>, at: &Place)
    requires cut { table.now.cut ≡ cut.now }
    requires own { IsSeatOf table.now seat.old }
    requires names { HasOneNameEach cut.now.pages }
    requires at { IsListed cut.now at.now }
    requires took { 0 < times at.now.page at.now.slot seat.old.takes }
    requires listed { All (IsListed cut.now) list.old.items }
    ensures scans { Scans at.now seat.old seat.new }
    ensures listed { All (IsListed cut.now) list.new.items }
{
    follow_image(table, cut, seat, list, at, 0);
    follow_image(table, cut, seat, list, at, 1);
    follow_image(table, cut, seat, list, at, 2);
    seat.scanned(table, at.page, at.slot);
}

/// Scans a place where nobody has taken it. The seat with all parts, which scanned all that was taken,
/// then knows it scanned.
pub(crate) fn visit(
    table: &MarkTable,
    cut: &ClosedCut,
    seat: &mut MarkSeat,
    list: &mut Vec<Place>,
    at: &Place,
)
    requires cut { table.now.cut ≡ cut.now }
    requires own { IsSeatOf table.now seat.old }
    requires names { HasOneNameEach cut.now.pages }
    requires at { IsListed cut.now at.now }
    requires listed { All (IsListed cut.now) list.old.items }
    ensures works { Works seat.old seat.new }
    ensures scanned { seat.old.parts ≡ all_parts → IsTidy seat.old → 0 < times at.now.page at.now.slot seat.new.scans }
    ensures listed { All (IsListed cut.now) list.new.items }
{
    if seat.take_to_scan(table, at.page, at.slot) {
        scan(table, cut, seat, list, at);
    }
}
