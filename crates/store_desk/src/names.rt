//! The names that a reopening found freed.
ghost use Rattle.std.specs.Prelude.{IfSome};
ghost use Rattle.store_desk.specs.Happenings.{FindsFreed};

use cut_core::Core;
use disk_trait::Disk;
use object_graph::Reply;
use std::marker::Model;
use std::snapshot::Snapshot;
use told::Tells;

/// What contracts keep of a reopening: the names that it found freed. No value of it is made.
pub struct FreedNames;

impl Model for FreedNames {
    ghost use Rattle.std.specs.Prelude.{List, []};
    ghost use Rattle.object_graph.specs.NameParts.{NameParts};

    ghost Value = { List NameParts };

    ghost view = { λ _. [] };
}

/// A reopening that was answered, with the core before it and the core after it.
#[derive(Drop)]
pub struct Reopening<'a, 'b, 'c, D: Disk> {
    pub before: &'a Snapshot<Core<D>>,
    pub after: &'b Core<D>,
    pub reply: &'c Reply,
}

// The names with which it is a reopening that the model allows, where the disk tells.
impl<D: Disk> Tells<FreedNames> for Reopening<'_, '_, '_, D> {
    ghost tells = { λ r names. IfSome (D.content r.before.now.value.disk) (λ _. FindsFreed r.before.now.value.world r.after.now.world r.reply.now names) };
}
