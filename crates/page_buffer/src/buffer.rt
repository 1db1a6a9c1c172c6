//! The frames of all pages.
ghost use Rattle.std.specs.Prelude.{◌≡◌, ℕ, ◌+◌, ◌<◌, ◌^◌, true, length, map, IfOk, IfErr, OnErr, IsTrue};
ghost use Rattle.object_graph.specs.Slots.{has_slot};
ghost use Rattle.page_image.specs.Slots.{taken, slot_with_number, slot_with_ref};
ghost use Rattle.page_image.specs.Pages.{slot_at, with_slot, IsFull, IsNextName};
ghost use Rattle.page_buffer.specs.Frames.{clean_frame, frame_at, with_frame, frame_written, settled, reverted, freed_frame, IsFrame, AreFrames};

use crate::frame::{Frame, clean, free_in};
use object_graph::{Memory, Name, OBJECT_FIELDS, SlotSet, Steps};
use page_image::{Page, PageFull};
use std::alloc::Global;
use std::marker::Model;
use std::sync::ledger::Ledger;

/// The frames of all pages, by their places. Contracts see their list. A read, a write and a freeing
/// are one step each of the counter that the caller hands in, whatever their answer; nothing else is
/// a step. After `new` no call takes memory (ARCHITECTURE.md, "Frames").
#[derive(Drop)]
pub struct Buffer {
    frames: Vec<Frame>,
}

impl Model for Buffer {
    ghost use Rattle.std.specs.Prelude.{List};
    ghost use Rattle.page_buffer.specs.Frames.{AreFrames};
    ghost use Rattle.page_buffer.specs.declared.frame.Frame.{Frame};

    ghost Value = { List Frame };

    ghost view = { λ b. b.frames.items };

    ghost invariant = { λ b. AreFrames b.frames.items };
}

impl Buffer {
    /// A buffer of these pages, all committed, as many as `count` can tell. Without memory for it the
    /// pages come back.
    pub fn new(alloc: Global, pages: Vec<Page>) -> Result<Buffer, (Vec<Page>, Memory)>
        requires { length pages.items < 2 ^ 32 }
        ensures ok { IfOk result (λ buffer. buffer ≡ map clean_frame pages.items) }
        ensures back { IfErr result (λ lack. lack.0 ≡ pages) }
    {
        match pages.iter().map(|page| clean(page)).collect(alloc) {
            Ok(frames) => Ok(Buffer { frames }),
            Err(_) => Err((pages, Memory)),
        }
    }

    /// How many pages there are.
    pub fn count(&self) -> u32
        ensures value { result ≡ length self.now }
        ensures kept { AreFrames self.now }
    {
        self.frames.len() as u32
    }

    /// How many references each object of a page has, which no write changes: it's no step.
    pub fn fields_of(&self, page: u32) -> usize
        requires { page < length self.now }
        ensures { result ≡ OBJECT_FIELDS }
    {
        self.frames[page as usize].before.fields()
    }

    /// The frame of a page. No other call reads what a page holds.
    pub fn frame<L: Ledger>(&self, page: u32, steps: &mut Steps<L>) -> &Frame
        requires { page < length self.now }
        ensures value { result.now ≡ frame_at self.now page }
        ensures kept { IsFrame result.now }
        ensures step { steps.new ≡ steps.old + 1 }
    {
        steps.tick();
        &self.frames[page as usize]
    }

    /// Sets the number of the object in a slot of the current image.
    pub fn write_number<L: Ledger>(
        &mut self,
        page: u32,
        slot: u16,
        number: u64,
        steps: &mut Steps<L>,
    )
        requires page { page < length self.old }
        requires slot { slot < length (frame_at self.old page).current.slots }
        requires used { (slot_at (frame_at self.old page).current slot).in_use ≡ true }
        ensures written { let f = frame_at self.old page in self.new ≡ with_frame self.old page (frame_written f (with_slot f.current slot (slot_with_number number))) }
        ensures step { steps.new ≡ steps.old + 1 }
    {
        steps.tick();
        let frame = &mut self.frames[page as usize];
        frame.current.set_number(slot, number);
        frame.dirty = true;
    }

    /// Sets a reference of the object in a slot of the current image.
    pub fn write_ref<L: Ledger>(
        &mut self,
        page: u32,
        slot: u16,
        field: u32,
        target: Option<Name>,
        steps: &mut Steps<L>,
    )
        requires page { page < length self.old }
        requires slot { slot < length (frame_at self.old page).current.slots }
        requires used { (slot_at (frame_at self.old page).current slot).in_use ≡ true }
        requires field { field < length (slot_at (frame_at self.old page).current slot).refs }
        ensures written { let f = frame_at self.old page in self.new ≡ with_frame self.old page (frame_written f (with_slot f.current slot (slot_with_ref field target))) }
        ensures step { steps.new ≡ steps.old + 1 }
    {
        steps.tick();
        let frame = &mut self.frames[page as usize];
        frame.current.set_ref(slot, field, target);
        frame.dirty = true;
    }

    /// Takes the least slot of the current image that is free and has a generation to spare, for a
    /// new object with number 0 and no references. It is refused exactly where there is no such
    /// slot; then no frame changes, so a clean one stays clean.
    pub fn take_slot<L: Ledger>(
        &mut self,
        page: u32,
        steps: &mut Steps<L>,
    ) -> Result<Name, PageFull>
        requires { page < length self.old }
        ensures next { IfOk result (λ name. IsNextName (frame_at self.old page).current name) }
        ensures taken { IfOk result (λ name. let f = frame_at self.old page in self.new ≡ with_frame self.old page (frame_written f (with_slot f.current name.slot taken))) }
        ensures full { OnErr result (IsFull (frame_at self.old page).current) }
        ensures unchanged { OnErr result (self.new ≡ self.old) }
        ensures step { steps.new ≡ steps.old + 1 }
    {
        steps.tick(); // A full page is a step too.
        let frame = &mut self.frames[page as usize];
        let name = frame.current.take_slot()?;
        frame.dirty = true;
        Ok(name)
    }

    /// Makes the current image the committed one.
    pub fn settle(&mut self, page: u32)
        requires { page < length self.old }
        ensures { self.new ≡ with_frame self.old page (settled (frame_at self.old page)) }
    {
        let frame = &mut self.frames[page as usize];
        frame.before = frame.current;
        frame.dirty = false;
    }

    /// Makes the committed image the current one.
    pub fn revert(&mut self, page: u32)
        requires { page < length self.old }
        ensures { self.new ≡ with_frame self.old page (reverted (frame_at self.old page)) }
    {
        let frame = &mut self.frames[page as usize];
        frame.current = frame.before;
        frame.dirty = false;
    }

    /// Frees slots in both images. The frame stays clean, or dirty, as it was: this is no write of the
    /// transaction that may have the page.
    pub fn free<L: Ledger>(&mut self, page: u32, slots: SlotSet, steps: &mut Steps<L>)
        requires page { page < length self.old }
        requires used { (slot : ℕ) → IsTrue (has_slot slots slot) → (slot_at (frame_at self.old page).before slot).in_use ≡ true }
        ensures freed { self.new ≡ with_frame self.old page (freed_frame slots (frame_at self.old page)) }
        ensures step { steps.new ≡ steps.old + 1 }
    {
        steps.tick();
        let frame = &mut self.frames[page as usize];
        free_in(&mut frame.current, slots);
        free_in(&mut frame.before, slots);
    }
}
