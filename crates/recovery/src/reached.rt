//! What is reached in the pages of a store. Each place is marked and followed once, so the work is
//! linear in the count of pages.
ghost use Rattle.std.specs.Prelude.{◌≡◌, ◌⊎◌, ◌<◌, ◌≤◌, ◌^◌, ℕ, true, Some, IfOk, OnOk, IsTrue, List, length};
ghost use Rattle.std.specs.List.{list_any};
ghost use Rattle.object_graph.specs.NameParts.{NameParts};
ghost use Rattle.object_graph.specs.Names.{name_eq};
ghost use Rattle.object_graph.specs.Graphs.{is_to};
ghost use Rattle.store_model.specs.FromImages.{slot_in, is_name_in_use, has_root};
ghost use Rattle.image_model.specs.Opening.{page_slots};
ghost use Rattle.image_model.specs.Stores.{reference_place};
ghost use Rattle.recovery.specs.Marks.{IsMarkedMore, IsUpTo, IsNotedAt, AreNoted, IsLeastDangling};

use crate::sizes::{SLOT_SIZE, home_of};
use object_graph::{Memory, Name, SlotSet};
use page_image::{HEADER_SIZE, Page, REFERENCE_SIZE, REFERENCES};
use std::alloc::Global;

/// Whether an object of this name is in use.
pub(crate) fn is_in_use(pages: &[Page], name: &Name) -> bool
    ensures { result ≡ is_name_in_use (page_slots pages.now) name.now }
{
    let page = name.page() as usize;
    if page >= pages.len() {
        return false;
    }
    match pages[page].object(name.slot()) {
        Some(object) => object.name.generation() == name.generation(),
        None => false,
    }
}

/// Where a reference of an object stands in its page's home.
fn place_of(name: &Name, field: usize) -> u64
    requires { field < 2 ^ 32 }
    ensures { result ≡ reference_place name.now field }
{
    let slot = HEADER_SIZE as u64 + SLOT_SIZE as u64 * u64::from(name.slot());
    home_of(name.page()) + slot + REFERENCES as u64 + REFERENCE_SIZE as u64 * field as u64
}

/// The least of the places so far and this one.
fn lesser(least: Option<u64>, place: u64) -> Option<u64>
    ensures kept { (at : ℕ) → IsUpTo least at → IsUpTo result at }
    ensures noted { IsUpTo result place }
    ensures only { (at : ℕ) → result ≡ Some at → (least ≡ Some at) ⊎ (at ≡ place) }
{
    match least {
        Some(before) => {
            if before <= place {
                Some(before)
            } else {
                Some(place)
            }
        }
        None => Some(place),
    }
}

/// Marks the place of a name that is in use, and puts the name to those to be followed, unless the
/// place is marked.
fn mark(
    pages: &[Page],
    marks: &mut [SlotSet],
    todo: &mut Vec<Name>,
    name: &Name,
) -> Result<(), Memory>
    requires { length marks.old ≡ length pages.now }
    ensures { OnOk result (IsMarkedMore (page_slots pages.now) (name_eq name.now) todo.old.items marks.old todo.new.items marks.new) }
{
    if !is_in_use(pages, name) {
        return Ok(());
    }
    let page = name.page() as usize;
    if marks[page].has(name.slot()) {
        return Ok(());
    }
    todo.push(name.copy())?;
    marks[page] = marks[page].with(name.slot());
    Ok(())
}

/// Marks what a reference refers to, and notes the reference's place where it dangles.
fn follow(
    pages: &[Page],
    marks: &mut [SlotSet],
    todo: &mut Vec<Name>,
    least: &mut Option<u64>,
    target: &Option<Name>,
    place: u64,
) -> Result<(), Memory>
    requires { length marks.old ≡ length pages.now }
    ensures marked { OnOk result (IsMarkedMore (page_slots pages.now) (λ n. is_to n target.now) todo.old.items marks.old todo.new.items marks.new) }
    ensures noted { OnOk result (IsNotedAt (page_slots pages.now) target.now place least.old least.new) }
{
    match target {
        Some(name) => {
            if is_in_use(pages, name) {
                return mark(pages, marks, todo, name);
            }
            *least = lesser(*least, place);
            Ok(())
        }
        None => Ok(()),
    }
}

/// Follows the references of the object of this name.
fn follow_all(
    pages: &[Page],
    marks: &mut [SlotSet],
    todo: &mut Vec<Name>,
    least: &mut Option<u64>,
    from: &Name,
    refs: &[Option<Name>],
) -> Result<(), Memory>
    requires long { length marks.old ≡ length pages.now }
    requires few { length refs.now < 2 ^ 32 }
    ensures marked { OnOk result (IsMarkedMore (page_slots pages.now) (λ n. list_any (is_to n) refs.now) todo.old.items marks.old todo.new.items marks.new) }
    ensures noted { OnOk result (AreNoted (page_slots pages.now) from.now refs.now (length refs.now) least.old least.new) }
{
    'refs: for field in 0..refs.len() {
        follow(
            pages,
            marks,
            todo,
            least,
            &refs[field],
            place_of(from, field),
        )?;
    }
    Ok(())
}

/// Follows what the object of this name refers to.
fn follow_from(
    pages: &[Page],
    marks: &mut [SlotSet],
    todo: &mut Vec<Name>,
    least: &mut Option<u64>,
    from: &Name,
) -> Result<(), Memory>
    requires long { length marks.old ≡ length pages.now }
    requires used { is_name_in_use (page_slots pages.now) from.now ≡ true }
    ensures marked { OnOk result (let refs = (slot_in (page_slots pages.now) from.now.page from.now.slot).refs in IsMarkedMore (page_slots pages.now) (λ n. list_any (is_to n) refs) todo.old.items marks.old todo.new.items marks.new) }
    ensures noted { OnOk result (let refs = (slot_in (page_slots pages.now) from.now.page from.now.slot).refs in AreNoted (page_slots pages.now) from.now refs (length refs) least.old least.new) }
{
    let page = from.page() as usize;
    match pages[page].object(from.slot()) {
        Some(object) => follow_all(pages, marks, todo, least, from, &object.refs),
        None => Ok(()),
    }
}

/// The least place of a reference that dangles, of all objects that are reached from the root.
pub(crate) fn first_dangling(alloc: Global, pages: &[Page]) -> Result<Option<u64>, Memory>
    requires { IsTrue (has_root (page_slots pages.now)) }
    ensures { IfOk result (IsLeastDangling (page_slots pages.now)) }
{
    let mut marks = vec![in alloc; SlotSet::empty(); pages.len()]?;
    let mut todo = Vec::new(alloc);
    let mut least = None;
    mark(pages, &mut marks, &mut todo, &Name::root())?;
    'walk: while let Some(name) = todo.pop() {
        follow_from(pages, &mut marks, &mut todo, &mut least, &name)?;
    }
    Ok(least)
}
