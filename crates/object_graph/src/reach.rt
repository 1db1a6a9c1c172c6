//! What is reached in a graph.
ghost use Rattle.std.specs.Prelude.{◌≡◌, ℕ, ◌<◌, ◌↔◌, [], false, map, length, IfOk, IfSome, IfNone, IsTrue, OnOk, slice_index_or};
ghost use Rattle.std.specs.List.{All, list_any};
ghost use Rattle.std.specs.List.Sorted.{IsStrictlyIncreasing};
ghost use Rattle.object_graph.specs.NameParts.{NameParts, IsName};
ghost use Rattle.object_graph.specs.Names.{name_eq, number_of};
ghost use Rattle.object_graph.specs.Graphs.{has_name, has_object, is_to, HasEachNameOnce, IsReachedFrom};
ghost use Rattle.object_graph.specs.Walks.{AreReached, AreTakenOver};
ghost use Rattle.object_graph.specs.ObjectParts.{ObjectParts};

use crate::graph::Graph;
use crate::memory::Memory;
use crate::names::{Name, Object};
use std::alloc::Global;

/// The names of the graph on a path from a start, ascending by their numbers.
pub fn reached(alloc: Global, graph: &Graph, starts: &[Name]) -> Result<Vec<Name>, Memory>
    ensures exact { IfOk result (λ names. (n : NameParts) → IsTrue (has_name names.items n) ↔ IsReachedFrom graph.now starts.now n) }
    ensures ascending { IfOk result (λ names. IsStrictlyIncreasing (map number_of names.items)) }
{
    let found = walk(alloc, graph.objects(), starts)?;
    let mut names = names_of(alloc, &found)?;
    names.sort_unstable_by_key(|name| name.to_u64());
    Ok(names)
}

/// The objects that are reached, in the order in which a walk from the starts meets them.
fn walk(alloc: Global, objects: &[Object], starts: &[Name]) -> Result<Vec<Object>, Memory>
    requires { HasEachNameOnce objects.now }
    ensures { IfOk result (λ found. AreReached objects.now starts.now found.items) }
{
    let mut left = Vec::from_slice(alloc, objects)?;
    let mut todo = Vec::new(alloc);
    let mut done = Vec::new(alloc);
    take_starts(&mut todo, &mut left, starts)?;
    'walk: while let Some(object) = todo.pop() {
        take_refs(&mut todo, &mut left, &object.refs)?;
        done.push(object)?;
    }
    Ok(done)
}

fn take_starts(
    todo: &mut Vec<Object>,
    left: &mut Vec<Object>,
    starts: &[Name],
) -> Result<(), Memory>
    ensures { OnOk result (AreTakenOver (has_name starts.now) todo.old.items left.old.items todo.new.items left.new.items) }
{
    'starts: for start in starts {
        take(todo, left, start)?;
    }
    Ok(())
}

fn take_refs(
    todo: &mut Vec<Object>,
    left: &mut Vec<Object>,
    refs: &[Option<Name>],
) -> Result<(), Memory>
    ensures { OnOk result (AreTakenOver (λ n. list_any (is_to n) refs.now) todo.old.items left.old.items todo.new.items left.new.items) }
{
    'refs: for target in refs {
        take_target(todo, left, target)?;
    }
    Ok(())
}

fn take_target(
    todo: &mut Vec<Object>,
    left: &mut Vec<Object>,
    target: &Option<Name>,
) -> Result<(), Memory>
    ensures { OnOk result (AreTakenOver (λ n. is_to n target.now) todo.old.items left.old.items todo.new.items left.new.items) }
{
    match target {
        Some(name) => take(todo, left, name),
        None => Ok(()),
    }
}

/// Takes the object of this name from those left, if it is there, to those to be followed.
fn take(todo: &mut Vec<Object>, left: &mut Vec<Object>, name: &Name) -> Result<(), Memory>
    ensures { OnOk result (AreTakenOver (name_eq name.now) todo.old.items left.old.items todo.new.items left.new.items) }
{
    match place_of(left, name) {
        Some(place) => {
            let object = left.remove(place);
            todo.push(object)?;
            Ok(())
        }
        None => Ok(()),
    }
}

fn place_of(objects: &[Object], name: &Name) -> Option<usize>
    ensures some { IfSome result (λ place. (place < length objects.now) × ((d : ObjectParts) → (slice_index_or objects.now place d).name ≡ name.now)) }
    ensures none { IfNone result (All (λ o. name_eq o.name name.now ≡ false) objects.now) }
{
    objects.iter().position(|object| object.name == *name)
}

fn names_of(alloc: Global, objects: &[Object]) -> Result<Vec<Name>, Memory>
    ensures names { IfOk result (λ names. names.items ≡ map (λ o. o.name) objects.now) }
    ensures each { IfOk result (λ names. All IsName names.items) }
{
    let mut names = Vec::new(alloc);
    'names: for object in objects {
        names.push(object.name.copy())?;
    }
    Ok(names)
}
