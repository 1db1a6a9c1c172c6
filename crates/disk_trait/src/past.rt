//! What was done to a disk in memory up to its last sync, kept in contracts alone.
ghost use Rattle.std.specs.Prelude.{◌≡◌};
ghost use Rattle.disk_trait.specs.Notes.{nothing_done, synced_past};

use crate::note::Note;
use std::marker::Model;
use told::{Tells, Told};

/// What was done to a disk in memory up to its last sync: its first bytes, and each write and each
/// sync since then. No value of it is made.
pub(crate) struct Past;

impl Model for Past {
    ghost use Rattle.std.specs.Prelude.{[]};
    ghost use Rattle.disk_trait.specs.Notes.{PastParts, nothing_done};

    ghost Value = { PastParts };

    ghost view = { λ _. nothing_done [] };
}

/// The bytes of a disk to which nothing was done.
#[derive(Drop)]
pub(crate) struct Untouched<'a> {
    pub(crate) bytes: &'a Vec<u8>,
}

impl Tells<Past> for Untouched<'_> {
    ghost tells = { λ u p. p ≡ nothing_done u.bytes.now.items };
}

/// A disk whose writes since its last sync are all safe: another sync came.
#[derive(Drop)]
pub(crate) struct Synced<'a, 'b> {
    pub(crate) past: &'a Told<Past>,
    pub(crate) writes: &'b Vec<Note>,
}

impl Tells<Past> for Synced<'_, '_> {
    ghost tells = { λ s p. p ≡ synced_past s.past.now.value s.writes.now.items };
}
