//! Names and objects.
ghost use Rattle.std.specs.Prelude.{◌≡◌, ℕ, ◌+◌, ◌-◌, ◌*◌, ◌/◌, ◌%◌, ◌^◌, ◌<◌, ◌≤◌, ◌↔◌, IfSome, IsSome};
ghost use Rattle.object_graph.specs.NameParts.{NameParts};
ghost use Rattle.object_graph.specs.Names.{number_of, root_name, IsName, IsNumberOfName};

use crate::limits::{MOST_PAGES, MOST_SLOTS};
use std::marker::Model;

/// A name of an object: a page, a slot of it, and which object of that slot it is, counted from 1
/// (FORMATS.md, "Names").
#[derive(Clone, Copy, Debug, PartialEq, Eq, PartialOrd, Ord)]
pub struct Name {
    page: u32,
    slot: u16,
    generation: u16,
}

impl Model for Name {
    ghost use Rattle.object_graph.specs.NameParts.{NameParts, IsName};

    ghost Value = { NameParts };

    ghost view = { λ n. record { page = n.page; slot = n.slot; generation = n.generation } };

    ghost invariant = { λ n. IsName (record { page = n.page; slot = n.slot; generation = n.generation }) };

    ghost inverse = { λ v. record { page = v.page; slot = v.slot; generation = v.generation } };
}

/// The name of the root, which is made with the store and never freed.
pub const ROOT: Name = Name {
    page: 0,
    slot: 0,
    generation: 1,
};

impl Name {
    /// `ROOT`, the root's name, as contracts see it.
    pub fn root() -> Name
        ensures { result ≡ root_name }
    {
        ROOT
    }

    /// The name with this number, if it is a name's.
    pub fn of(number: u64) -> Option<Name>
        ensures some { IsSome result ↔ IsNumberOfName number }
        ensures value { IfSome result (λ n. number_of n ≡ number) }
    {
        let page = number >> 32;
        let slot = (number >> 16) & 0xffff;
        let generation = number & 0xffff;
        if page < MOST_PAGES as u64 && slot < MOST_SLOTS as u64 && 1 <= generation {
            Some(Name {
                page: page as u32,
                slot: slot as u16,
                generation: generation as u16,
            })
        } else {
            None
        }
    }

    /// This name once more. Each name has the bounds of a name.
    pub fn copy(&self) -> Name
        ensures same { result ≡ self.now }
        ensures bounds { IsName result }
    {
        let _ = &self.page;
        *self
    }

    /// The name of these parts.
    pub fn at(page: u32, slot: u16, generation: u16) -> Name
        requires page { page < MOST_PAGES }
        requires slot { slot < MOST_SLOTS }
        requires first { 1 ≤ generation }
        ensures page { result.page ≡ page }
        ensures slot { result.slot ≡ slot }
        ensures generation { result.generation ≡ generation }
    {
        Name {
            page,
            slot,
            generation,
        }
    }

    /// The page on which the object is.
    pub fn page(self) -> u32
        ensures value { result ≡ self.page }
        ensures bound { result < MOST_PAGES }
    {
        self.page
    }

    /// The slot of that page.
    pub fn slot(self) -> u16
        ensures value { result ≡ self.slot }
        ensures bound { result < MOST_SLOTS }
    {
        self.slot
    }

    /// Which object of that slot it is, counted from 1.
    pub fn generation(self) -> u16
        ensures value { result ≡ self.generation }
        ensures bound { 1 ≤ result }
    {
        self.generation
    }

    /// The number of the name (FORMATS.md, "Names").
    pub fn to_u64(self) -> u64
        ensures { result ≡ number_of self }
    {
        (self.page as u64) * 0x1_0000_0000 + (self.slot as u64) * 0x1_0000 + self.generation as u64
    }
}

/// Names and their numbers are one to one: two names never have one number, each name's number is a
/// name's, and each number that is a name's is the number of a name.
pub fn names_and_numbers_are_one_to_one()
    ensures apart { (m n : NameParts) → IsName m → IsName n → number_of m ≡ number_of n → m ≡ n }
    ensures to { (n : NameParts) → IsName n → IsNumberOfName (number_of n) }
    ensures from { (k : ℕ) → IsNumberOfName k → (n : NameParts) × IsName n × (number_of n ≡ k) }
{}

/// How many references an object of the plain graph has.
pub const OBJECT_FIELDS: usize = 4;

/// An object with its fields. Contracts see its references as a list.
#[derive(Clone, Copy, Debug, PartialEq, Eq)]
pub struct Object {
    pub name: Name,
    pub number: u64,
    pub refs: [Option<Name>; OBJECT_FIELDS],
}

impl Model for Object {
    ghost use Rattle.object_graph.specs.ObjectParts.{ObjectParts};

    ghost Value = { ObjectParts };

    ghost view = { λ o. record { name = o.name; number = o.number; refs = o.refs } };

    ghost inverse = { λ v. record { name = v.name; number = v.number; refs = v.refs } };
}
