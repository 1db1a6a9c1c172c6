//! The plain graph: the store that never frees, in memory.
ghost use Rattle.std.specs.Prelude.{◌≡◌, ◌<◌, ◌++◌, ◌∷◌, [], IfOk, IsTrue, OnErr, map, not, slice_set, if◌then◌else◌};
ghost use Rattle.object_graph.specs.Graphs.{fields_in, fresh_graph, numbered_object, object_fields, object_named, has_object, with_number, with_ref, HasEachNameOnce};

use crate::memory::Memory;
use crate::names::{Name, OBJECT_FIELDS, Object, ROOT};
use std::alloc::Global;
use std::marker::Model;

/// A graph of objects, each name at most once. Contracts see it as the list of its objects, oldest
/// first.
#[derive(Drop)]
pub struct Graph {
    objects: Vec<Object>,
}

impl Model for Graph {
    ghost use Rattle.std.specs.Prelude.{List};
    ghost use Rattle.object_graph.specs.Graphs.{HasEachNameOnce};
    ghost use Rattle.object_graph.specs.ObjectParts.{ObjectParts};

    ghost Value = { List ObjectParts };

    ghost view = { λ g. g.objects.items };

    ghost invariant = { λ g. HasEachNameOnce g.objects.items };
}

impl Graph {
    /// The graph that holds the root alone, with number 0 and no references.
    pub fn new(alloc: Global) -> Result<Graph, Memory>
        ensures { IfOk result (λ g. g ≡ fresh_graph) }
    {
        let mut objects = Vec::new(alloc);
        let root = Object {
            name: ROOT,
            number: 0,
            refs: [None; OBJECT_FIELDS],
        };
        match objects.push(root) {
            Ok(()) => Ok(Graph { objects }),
            Err(_) => Err(Memory),
        }
    }

    /// The object of this name, if the graph has it.
    pub fn object(&self, name: Name) -> Option<Object>
        ensures { result ≡ object_named self.now name }
    {
        find_object(&self.objects, name)
    }

    /// Adds an object of this name, with this number and no references, and says whether the name
    /// was new.
    pub fn add(&mut self, name: Name, number: u64) -> Result<bool, Memory>
        ensures new { IfOk result (λ new. new ≡ not (has_object self.old name)) }
        ensures added { IfOk result (λ new. self.new ≡ (if new then self.old ++ numbered_object object_fields name number ∷ [] else self.old)) }
        ensures same { OnErr result (self.new ≡ self.old) }
    {
        if has_name(&self.objects, name) {
            return Ok(false);
        }
        let object = Object {
            name,
            number,
            refs: [None; OBJECT_FIELDS],
        };
        match self.objects.push(object) {
            Ok(()) => Ok(true),
            Err(_) => Err(Memory),
        }
    }

    /// Sets the number of an object that is there.
    pub fn put(&mut self, name: Name, number: u64)
        requires { IsTrue (has_object self.old name) }
        ensures { self.new ≡ map (with_number name number) self.old }
    {
        put_number(&mut self.objects, name, number);
    }

    /// Sets a reference of an object that is there.
    pub fn set_ref(&mut self, name: Name, field: u32, target: Option<Name>)
        requires { field < fields_in self.old name }
        ensures { self.new ≡ map (with_ref name field target) self.old }
    {
        put_ref(&mut self.objects, name, field, &target);
    }

    /// The objects, oldest first.
    pub fn objects(&self) -> &[Object]
        ensures list { result.now ≡ self.now }
        ensures once { HasEachNameOnce self.now }
    {
        &self.objects
    }
}

fn has_name(objects: &[Object], name: Name) -> bool
    ensures { result ≡ has_object objects.now name }
{
    objects.iter().any(|object| object.name == name)
}

fn put_ref(objects: &mut [Object], name: Name, field: u32, target: &Option<Name>)
    ensures { objects.new ≡ map (with_ref name field target.now) objects.old }
{
    for object in objects.iter_mut() {
        *object = referring(object, name, field, target);
    }
}

fn referring(object: &Object, name: Name, field: u32, target: &Option<Name>) -> Object
    ensures { result ≡ with_ref name field target.now object.now }
{
    let mut changed = *object;
    if changed.name == name {
        set_field(&mut changed.refs, field, target);
    }
    changed
}

fn set_field(refs: &mut [Option<Name>], field: u32, target: &Option<Name>)
    ensures { refs.new ≡ slice_set refs.old field target.now }
{
    if (field as usize) < refs.len() {
        refs[field as usize] = *target;
    }
}

fn put_number(objects: &mut [Object], name: Name, number: u64)
    ensures { objects.new ≡ map (with_number name number) objects.old }
{
    for object in objects.iter_mut() {
        *object = numbered(object, name, number);
    }
}

fn numbered(object: &Object, name: Name, number: u64) -> Object
    ensures { result ≡ with_number name number object.now }
{
    let mut changed = *object;
    if changed.name == name {
        changed.number = number;
    }
    changed
}

fn find_object(objects: &[Object], name: Name) -> Option<Object>
    ensures { result ≡ object_named objects.now name }
{
    for object in objects {
        if object.name == name {
            return Some(*object);
        }
    }
    None
}
