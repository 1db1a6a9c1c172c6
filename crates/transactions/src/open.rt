//! An open transaction.
ghost use Rattle.std.specs.Prelude.{◌≡◌, ◌≤◌, ◌<◌, true, false, IfOk, length, nat_le};
ghost use Rattle.object_graph.specs.Graphs.{has_name};
ghost use Rattle.store_model.specs.Causes.{has_page};
ghost use Rattle.transactions.specs.Tables.{OpenParts, IsAscending, IsPlaceFor, fresh_entry, is_wide, knows_target, is_full_for, NotesPage, NotesTarget};

use crate::known::KnownNames;
use object_graph::{MOST_KNOWN, MOST_WRITTEN, Memory, Name};
use std::alloc::Global;
use std::marker::Model;

/// What an open transaction knows, and which pages it wrote, ascending. All memory is taken by `new`.
#[derive(Drop)]
pub struct Open {
    known: KnownNames,
    written: Vec<u32>,
}

impl Model for Open {
    ghost use Rattle.std.specs.Prelude.{◌≤◌, length, vec_capacity};
    ghost use Rattle.object_graph.specs.declared.limits.TheConstants.{MOST_WRITTEN};
    ghost use Rattle.transactions.specs.Tables.{OpenParts, IsAscending};

    ghost Value = { OpenParts };

    ghost view = { λ o. record { known = o.known; written = o.written.items } };

    ghost invariant = { λ o. IsAscending o.written.items × (MOST_WRITTEN ≤ vec_capacity o.written) × (length o.written.items ≤ MOST_WRITTEN) };
}

impl Open {
    /// It knows the root, and has written nothing.
    pub fn new(alloc: Global) -> Result<Open, Memory>
        ensures { IfOk result (λ made. made ≡ fresh_entry) }
    {
        Ok(Open {
            known: KnownNames::new(alloc)?,
            written: Vec::with_capacity(alloc, MOST_WRITTEN)?,
        })
    }

    /// It knows the root, and has written nothing, as at its beginning.
    pub fn clear(&mut self)
        ensures { self.new ≡ fresh_entry }
    {
        self.known.clear();
        self.written.clear();
    }

    pub fn knows(&self, name: Name) -> bool
        ensures { result ≡ has_name self.now.known name }
    {
        self.known.knows(name)
    }

    /// The target is none or known.
    pub fn knows_target(&self, target: &Option<Name>) -> bool
        ensures { result ≡ knows_target self.now.known target.now }
    {
        match target {
            None => true,
            Some(name) => self.knows(*name),
        }
    }

    /// As many names are known as can be.
    pub fn knows_most(&self) -> bool
        ensures { result ≡ nat_le MOST_KNOWN (length self.now.known) }
    {
        self.known.count() >= MOST_KNOWN
    }

    /// The target would be one name more, and as many are known as can be.
    pub fn has_no_room_for(&self, target: &Option<Name>) -> bool
        ensures { result ≡ is_full_for self.now.known target.now }
    {
        match target {
            None => false,
            Some(name) => self.knows_most() && !self.knows(*name),
        }
    }

    /// The written pages, ascending.
    pub fn written(&self) -> &[u32]
        ensures pages { result.now ≡ self.now.written }
        ensures ascending { IsAscending self.now.written }
        ensures few { length self.now.written ≤ MOST_WRITTEN }
    {
        &self.written
    }

    pub fn has_written(&self, page: u32) -> bool
        ensures { result ≡ has_page self.now.written page }
    {
        match self.written.binary_search(&page) {
            Ok(_) => true,
            Err(_) => false,
        }
    }

    /// As many pages are written as can be, and this isn't one of them.
    pub fn is_too_wide(&self, page: u32) -> bool
        ensures { result ≡ is_wide self.now.written page }
    {
        self.written.len() >= MOST_WRITTEN && !self.has_written(page)
    }

    /// Notes a page as written.
    pub fn note_page(&mut self, page: u32)
        requires { is_wide self.old.written page ≡ false }
        ensures { NotesPage page self.old self.new }
    {
        if !self.has_written(page) {
            let at = self.place_for(page);
            let Ok(()) = self.written.insert(at, page) else {
                unreachable!();
            };
        }
    }

    /// Where a page goes among the written ones.
    fn place_for(&self, page: u32) -> usize
        requires { has_page self.now.written page ≡ false }
        ensures { IsPlaceFor page result self.now.written }
    {
        match self.written.binary_search(&page) {
            Ok(at) => at,
            Err(at) => at,
        }
    }

    /// Notes a name that was answered as known.
    pub fn note_target(&mut self, target: &Option<Name>)
        requires { is_full_for self.old.known target.now ≡ false }
        ensures { NotesTarget target.now self.old self.new }
    {
        if let Some(name) = target {
            if !self.known.knows(*name) {
                self.known.add(*name);
            }
        }
    }
}
