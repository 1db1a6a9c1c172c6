//! What tells the world that the store stands for.
ghost use Rattle.std.specs.Prelude.{◌≡◌, Some, is_some};
ghost use Rattle.store_model.specs.FromImages.{world_of};
ghost use Rattle.store_model.specs.Steps.{next};
ghost use Rattle.image_model.specs.Opening.{page_slots};
ghost use Rattle.recovery.specs.Opened.{held_by};
ghost use Rattle.cut_core.specs.Calls.{event_of};
ghost use Rattle.cut_core.specs.Given.{close_event, mark_event, marked_reply};
ghost use Rattle.cut_core.specs.Reopening.{IsFound};

use cut_builder::{ClosedCut, MarkedCut};
use disk_trait::Disk;
use object_graph::{Call, Refusal, Reply};
use recovery::Opened;
use std::marker::Model;
use told::{Tells, Told};

/// What contracts keep of a store: a world. No value of it is made.
pub struct KeptWorld;

impl Model for KeptWorld {
    ghost use Rattle.store_model.specs.Worlds.{World, fresh_world};

    ghost Value = { World };

    ghost view = { λ _. fresh_world 1 };
}

// The world that a store opens to.
impl Tells<KeptWorld> for Opened {
    ghost tells = { λ found w. w ≡ world_of found.commits (page_slots found.pages.items) };
}

/// A call that was answered, as the disk has counted so many faults.
#[derive(Drop)]
pub struct Answered<'a, 'b, 'c> {
    pub world: &'a Told<KeptWorld>,
    pub call: &'b Call,
    pub reply: &'c Reply,
    pub faults: u64,
}

// The world after it.
impl Tells<KeptWorld> for Answered<'_, '_, '_> {
    ghost tells = { λ e w. w ≡ next e.world.now.value (event_of e.call.now e.reply.now e.faults) };
}

/// A store that was found on a disk in the place of one.
#[derive(Drop)]
pub struct FoundAgain<'a, 'b, 'c, D> {
    pub world: &'a Told<KeptWorld>,
    pub found: &'b Opened,
    pub disk: &'c D,
}

// The world after that reopening.
impl<D: Disk> Tells<KeptWorld> for FoundAgain<'_, '_, '_, D> {
    ghost tells = { λ e w. IsFound (is_some (D.content e.disk.now)) e.world.now.value (held_by e.found.now) w };
}

/// A closing that was answered.
#[derive(Drop)]
pub struct Closing<'a, 'b> {
    pub world: &'a Told<KeptWorld>,
    pub answer: &'b Result<ClosedCut, Refusal>,
}

// The world after it.
impl Tells<KeptWorld> for Closing<'_, '_> {
    ghost tells = { λ e w. w ≡ next e.world.now.value (close_event e.answer.now) };
}

/// Marks that were answered, of the cut of this number.
#[derive(Drop)]
pub struct Marking<'a, 'b> {
    pub world: &'a Told<KeptWorld>,
    pub number: u64,
    pub answer: &'b Result<(), (MarkedCut, Refusal)>,
}

// The world after it.
impl Tells<KeptWorld> for Marking<'_, '_> {
    ghost tells = { λ e w. w ≡ next e.world.now.value (mark_event 1 (Some e.number) (marked_reply e.answer.now)) };
}
