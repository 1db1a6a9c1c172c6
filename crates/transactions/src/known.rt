//! The names that a transaction knows.
ghost use Rattle.std.specs.Prelude.{◌≡◌, ◌<◌, ◌++◌, ◌∷◌, [], false, IfOk, length};
ghost use Rattle.object_graph.specs.Names.{root_name};
ghost use Rattle.object_graph.specs.Graphs.{has_name};

use indexmap::IndexSet;
use object_graph::{MOST_KNOWN, Memory, Name};
use std::alloc::Global;
use std::marker::Model;

/// Names, oldest first, each once. They are kept by their numbers, so that a look-up is no walk. All
/// memory is taken by `new`.
#[derive(Drop)]
pub struct KnownNames {
    numbers: IndexSet<u64>,
}

impl Model for KnownNames {
    ghost use Rattle.std.specs.Prelude.{List, map, ◌+◌, ◌≤◌, length};
    ghost use Rattle.std.specs.List.{AllByRecursion};
    ghost use Rattle.indexmap.specs.IndexSet.{spare};
    ghost use Rattle.object_graph.specs.NameParts.{NameParts};
    ghost use Rattle.page_image.specs.Fields.{numbered_name};
    ghost use Rattle.object_graph.specs.declared.limits.TheConstants.{MOST_KNOWN};
    ghost use Rattle.transactions.specs.KnownNumbers.{IsOfName};

    ghost Value = { List NameParts };

    ghost view = { λ k. map numbered_name k.numbers.keys };

    ghost invariant = { λ k. AllByRecursion IsOfName k.numbers.keys × (MOST_KNOWN ≤ length k.numbers.keys + spare k.numbers) };
}

impl KnownNames {
    /// The root alone is known, with room for as many names as can be.
    pub fn new(alloc: Global) -> Result<KnownNames, Memory>
        ensures { IfOk result (λ known. known ≡ root_name ∷ []) }
    {
        let mut numbers = IndexSet::with_capacity(alloc, MOST_KNOWN)?;
        numbers.insert(Name::root().to_u64())?;
        Ok(KnownNames { numbers })
    }

    /// The root alone is known again, with the same room. The work is as much as was known.
    pub fn clear(&mut self)
        ensures { self.new ≡ root_name ∷ [] }
    {
        self.numbers.truncate(0);
        let Ok(_) = self.numbers.insert(Name::root().to_u64()) else {
            unreachable!();
        };
    }

    pub fn count(&self) -> usize
        ensures { result ≡ length self.now }
    {
        self.numbers.len()
    }

    pub fn knows(&self, name: Name) -> bool
        ensures { result ≡ has_name self.now name }
    {
        self.numbers.contains(&name.copy().to_u64())
    }

    /// Adds a name.
    pub fn add(&mut self, name: Name)
        requires room { length self.old < MOST_KNOWN }
        requires absent { has_name self.old name ≡ false }
        ensures { self.new ≡ self.old ++ name ∷ [] }
    {
        let Ok(_) = self.numbers.insert(name.copy().to_u64()) else {
            unreachable!();
        };
    }
}
