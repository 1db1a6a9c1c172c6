//! A page as a value.
ghost use Rattle.std.specs.Prelude.{◌≡◌, ◌<◌, ℕ, true, false, length, IfOk, IfSome, IfNone, OnErr, IfErr, Ok, Err, None, IsTrue, slice_index_or, ◌&&◌, ◌==◌, nat_lt};
ghost use Rattle.object_graph.specs.Slots.{has_slot};
ghost use Rattle.std.specs.List.{AllByRecursion};
ghost use Rattle.page_image.specs.Slots.{IsWholeSlot, fresh_slot, taken, freed, slot_with_number, slot_with_ref, has_room};
ghost use Rattle.page_image.specs.Fields.{page_at};
ghost use Rattle.page_image.specs.Images.{page_said};
ghost use Rattle.page_image.specs.Spelling.{page_bytes};
ghost use Rattle.page_image.specs.Pages.{PageParts, IsPage, empty_page, slot_at, with_slot, object_at, object_of, page_has_name, slot_freed, IsFull, IsFirstWithRoom, IsNextName};

use crate::layout::{fields, piece, slots};
use crate::numbers::u32_at;
use crate::read::{generation, has_room, in_use, object_in, reference_in};
use crate::write::{put_bare, put_header, put_number, put_reference};
use crate::wrong::first_wrong_field;
use object_graph::{MOST_PAGES, Name, OBJECT_FIELDS, Object, SLOTS_PER_PAGE, SlotSet};
use std::marker::Model;

/// The image of a page, kept as its spelling. Contracts see its number and its slots. It is a plain
/// copy without memory (FORMATS.md, "Pages").
#[derive(Clone, Copy, Debug, PartialEq, Eq)]
pub struct Page {
    bytes: [u8; 1024],
}

impl Model for Page {
    ghost use Rattle.page_image.specs.Pages.{PageParts};
    ghost use Rattle.page_image.specs.Spelling.{page_bytes};
    ghost use Rattle.page_image.specs.Images.{page_said, IsImage};

    ghost Value = { PageParts };

    ghost view = { λ p. page_said p.bytes };

    ghost invariant = { λ p. IsImage p.bytes };

    ghost inverse = { λ v. record { bytes = page_bytes v } };

    ghost inverse_ok = { λ p is i. record { bytes = is.spelled i } };
}

/// The bytes are no page's: where the first wrong field begins, counted from the page's beginning.
#[derive(Clone, Copy, Debug, PartialEq, Eq)]
pub struct BadPage {
    pub at: u32,
}

/// Each slot of the page is in use or spent.
#[derive(Clone, Copy, Debug, PartialEq, Eq)]
pub struct PageFull;

impl Page {
    /// A page without objects.
    pub fn empty(number: u32) -> Page
        requires { number < MOST_PAGES }
        ensures { result ≡ empty_page number }
    {
        let mut bytes = [0; 1024];
        put_header(&mut bytes, number);
        Page { bytes }
    }

    /// The page that the bytes spell. Where no page is spelled so, the answer is the place of the
    /// first wrong field (FORMATS.md, "Pages").
    pub fn decode(bytes: &[u8; 1024]) -> Result<Page, BadPage>
        ensures ok { IfOk result (λ page. page_at bytes.now ≡ Ok page) }
        ensures bad { IfErr result (λ bad. page_at bytes.now ≡ Err bad.at) }

        // It is Ok exactly where some page has this spelling, with that page.
        ensures spelled { IfOk result (λ page. page_bytes page ≡ bytes.now) }
        ensures only { (page : PageParts) → IsPage page → page_bytes page ≡ bytes.now → result ≡ Ok page }
    {
        match first_wrong_field(bytes) {
            Some(at) => Err(BadPage { at }),
            None => Ok(Page { bytes: *bytes }),
        }
    }

    /// Writes the page's one spelling.
    pub fn encode(&self, out: &mut [u8; 1024])
        ensures spelled { out.new ≡ page_bytes self.now }
        ensures again { page_at out.new ≡ Ok self.now }
    {
        *out = self.bytes;
    }

    /// The page's one spelling, as it is kept.
    pub fn bytes(&self) -> &[u8; 1024]
        ensures spelled { result.now ≡ page_bytes self.now }
        ensures again { page_at result.now ≡ Ok self.now }
        ensures long { length result.now ≡ 1024 }
    {
        &self.bytes
    }

    pub fn number(&self) -> u32
        ensures value { result ≡ self.now.number }
        ensures bound { result < MOST_PAGES }
    {
        u32_at(&self.bytes, 4)
    }

    /// How many references each object of the page has.
    pub fn fields(&self) -> usize
        ensures { result ≡ OBJECT_FIELDS }
    {
        fields(&self.bytes)
    }

    /// The stored generation of a slot: that of the last object committed there, or 0.
    pub fn generation(&self, slot: u16) -> u16
        requires { slot < length self.now.slots }
        ensures { result ≡ (slot_at self.now slot).generation }
    {
        generation(piece(&self.bytes, slot))
    }

    /// The object in a slot, if there is one.
    #[inline(always)]
    pub fn object(&self, slot: u16) -> Option<Object>
        ensures { result ≡ object_at self.now slot }
    {
        if slot >= slots(&self.bytes) {
            return None;
        }
        object_in(self.number(), slot, piece(&self.bytes, slot))
    }

    /// A reference of the object in a slot: none where no object is there.
    #[inline(always)]
    pub fn reference(&self, slot: u16, field: u32) -> Option<Name>
        requires { field < OBJECT_FIELDS }
        ensures { result ≡ slice_index_or (slot_at self.now slot).refs field None }
    {
        if slot >= slots(&self.bytes) {
            return None;
        }
        reference_in(piece(&self.bytes, slot), field)
    }

    /// Whether an object of this name is in use on the page.
    pub fn has(&self, name: Name) -> bool
        ensures { result ≡ page_has_name self.now name }
    {
        name.page() == self.number() && holds_at(&self.bytes, name.slot(), name.generation())
    }

    /// What each page is, for those who rely on it: it does nothing else.
    pub fn is_page(&self)
        ensures { IsPage self.now }
    {
        let _bytes = &self.bytes;
    }

    /// The slots that are in use.
    pub fn used(&self) -> SlotSet
        ensures { (slot : ℕ) → has_slot result slot ≡ (slot_at self.now slot).in_use }
    {
        used_among(&self.bytes)
    }

    /// Frees the objects in these slots. Their generations stay.
    pub fn free_slots(&mut self, slots: SlotSet)
        requires used { (slot : ℕ) → IsTrue (has_slot slots slot) → (slot_at self.old slot).in_use ≡ true }
        ensures number { self.new.number ≡ self.old.number }
        ensures count { length self.new.slots ≡ length self.old.slots }
        ensures freed { (slot : ℕ) → slot_at self.new slot ≡ slot_freed slots slot (slot_at self.old slot) }
    {
        for slot in 0..self.slots() {
            if slots.has(slot) {
                self.free_slot(slot);
            }
        }
    }

    /// Sets the number of the object in a slot.
    pub fn set_number(&mut self, slot: u16, number: u64)
        requires within { slot < length self.old.slots }
        requires used { (slot_at self.old slot).in_use ≡ true }
        ensures { self.new ≡ with_slot self.old slot (slot_with_number number) }
    {
        put_number(&mut self.bytes, slot, number);
    }

    /// Sets a reference of the object in a slot.
    pub fn set_ref(&mut self, slot: u16, field: u32, target: Option<Name>)
        requires within { slot < length self.old.slots }
        requires used { (slot_at self.old slot).in_use ≡ true }
        requires field { field < length (slot_at self.old slot).refs }
        ensures { self.new ≡ with_slot self.old slot (slot_with_ref field target) }
    {
        put_reference(&mut self.bytes, slot, field as usize, &target);
    }

    /// Takes the least slot that is free and has a generation to spare, for a new object with number
    /// 0 and no references. It is refused exactly where there is no such slot.
    pub fn take_slot(&mut self) -> Result<Name, PageFull>
        ensures next { IfOk result (λ name. IsNextName self.old name) }
        ensures taken { IfOk result (λ name. self.new ≡ with_slot self.old name.slot taken) }
        ensures full { OnErr result (IsFull self.old) }
        ensures unchanged { OnErr result (self.new ≡ self.old) }
    {
        let Some(slot) = first_with_room(&self.bytes) else {
            return Err(PageFull);
        };
        let next = generation(piece(&self.bytes, slot)) + 1;
        let name = Name::at(self.number(), slot, next);
        put_bare(&mut self.bytes, slot, true, next);
        Ok(name)
    }

    /// How many slots the page has.
    fn slots(&self) -> u16
        ensures count { result ≡ length self.now.slots }
        ensures bound { result ≡ SLOTS_PER_PAGE }
    {
        slots(&self.bytes)
    }

    /// Frees the object in a slot.
    fn free_slot(&mut self, slot: u16)
        requires within { slot < length self.old.slots }
        ensures { self.new ≡ with_slot self.old slot freed }
    {
        let last = generation(piece(&self.bytes, slot));
        put_bare(&mut self.bytes, slot, false, last);
    }
}

/// The least slot that a new object can take.
fn first_with_room(bytes: &[u8; 1024]) -> Option<u16>
    ensures some { IfSome result (λ slot. IsFirstWithRoom (page_said bytes.now) slot) }
    ensures none { IfNone result (IsFull (page_said bytes.now)) }
{
    for slot in 0..slots(bytes) {
        if has_room(piece(bytes, slot)) {
            return Some(slot);
        }
    }
    None
}

/// Whether an object of this generation is in use in a slot.
fn holds_at(bytes: &[u8; 1024], at: u16, of: u16) -> bool
    ensures { let slot = slot_at (page_said bytes.now) at in result ≡ (slot.in_use && slot.generation == of) }
{
    if at >= slots(bytes) {
        return false;
    }
    let slot = piece(bytes, at);
    in_use(slot) && generation(slot) == of
}

/// The slots that are in use.
fn used_among(bytes: &[u8; 1024]) -> SlotSet
    ensures { (slot : ℕ) → has_slot result slot ≡ (slot_at (page_said bytes.now) slot).in_use }
{
    let mut used = SlotSet::empty();
    for slot in 0..slots(bytes) {
        if in_use(piece(bytes, slot)) {
            used = used.with(slot);
        }
    }
    used
}
