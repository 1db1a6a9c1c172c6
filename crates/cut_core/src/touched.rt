//! The pages whose frames the last call changed.
ghost use Rattle.std.specs.Prelude.{◌≡◌, [], IfOk, slice_get};
ghost use Rattle.object_graph.specs.Slots.{below};
ghost use Rattle.transactions.specs.Tables.{IsAscending, entry_of, pages_in};
ghost use Rattle.cut_core.specs.Touched.{frees_some, pages_ended, touched_after};

use object_graph::{Call, MOST_WRITTEN, Memory, Reply};
use std::alloc::Global;
use std::marker::Model;
use transactions::Transactions;

/// What the last call changed of the frames.
#[derive(Drop)]
pub enum Change {
    Nothing,
    One { page: u32 },
    /// Those of the pages that a transaction wrote.
    Written,
    /// Those of all pages, so many.
    All { count: u32 },
}

/// The pages whose frames the last call changed, ascending. All memory is taken by `with_room`, and only
/// the end of a transaction copies pages.
#[derive(Drop)]
pub struct Touched {
    change: Change,
    written: Vec<u32>,
}

impl Model for Touched {
    ghost use Rattle.std.specs.Prelude.{ℕ, ◌≤◌, List, vec_capacity};
    ghost use Rattle.object_graph.specs.declared.limits.TheConstants.{MOST_WRITTEN};
    ghost use Rattle.cut_core.specs.Touched.{pages_of_change};

    ghost Value = { List ℕ };

    ghost view = { λ t. pages_of_change t.change t.written.items };

    ghost invariant = { λ t. MOST_WRITTEN ≤ vec_capacity t.written };
}

/// Whether the reply frees some slot.
fn is_freeing(reply: &Reply) -> bool
    ensures { result ≡ frees_some reply.now }
{
    match *reply {
        Reply::Freed { slots } => !slots.is_empty(),
        _ => false,
    }
}

/// The page at this place of all, of which there are so many.
fn page_of_all(count: u32, at: u32) -> Option<u32>
    ensures { result ≡ slice_get (below count) at }
{
    (at < count).then_some(at)
}

impl Touched {
    /// Before the first call nothing is touched.
    pub fn with_room(alloc: Global) -> Result<Touched, Memory>
        ensures { IfOk result (λ touched. touched ≡ []) }
    {
        Ok(Touched {
            change: Change::Nothing,
            written: Vec::with_capacity(alloc, MOST_WRITTEN)?,
        })
    }

    /// Notes that a call touches nothing.
    pub fn note_nothing(&mut self)
        ensures { self.new ≡ [] }
    {
        self.change = Change::Nothing;
    }

    /// Before a call: takes the pages that a transaction wrote, where the call ends it.
    pub fn note_call(&mut self, transactions: &Transactions, call: &Call)
        ensures pages { self.new ≡ pages_ended transactions.now.table call.now }
        ensures ascending { IsAscending self.new }
    {
        match *call {
            Call::Commit { txn } => self.take_written(transactions, txn),
            Call::Abort { txn } => self.take_written(transactions, txn),
            _ => self.note_nothing(),
        }
    }

    /// Takes the pages that a transaction wrote.
    fn take_written(&mut self, transactions: &Transactions, txn: u32)
        ensures pages { self.new ≡ pages_in (entry_of transactions.now.table txn) }
        ensures ascending { IsAscending self.new }
    {
        let pages = transactions.pages_written(txn);
        self.written.clear();
        let Ok(()) = self.written.extend_from_slice(pages) else {
            unreachable!();
        };
        self.change = Change::Written;
    }

    /// After the call, which touched what its reply says, in a store of so many pages.
    pub fn note_reply(&mut self, call: &Call, reply: &Reply, count: u32)
        ensures { self.new ≡ touched_after count self.old call.now reply.now }
    {
        if let Reply::Refused { why: _ } = *reply {
            self.note_nothing();
            return;
        }
        match *call {
            Call::Set {
                txn: _,
                name,
                field: _,
                target: _,
            } => self.change = Change::One { page: name.page() },
            Call::Put {
                txn: _,
                name,
                value: _,
            } => self.change = Change::One { page: name.page() },
            Call::New { txn: _, page } => self.change = Change::One { page },
            Call::Commit { txn: _ } => {}
            Call::Abort { txn: _ } => {}
            Call::Sweep { page } if is_freeing(reply) => self.change = Change::One { page },
            Call::Reopen => self.change = Change::All { count },
            _ => self.note_nothing(),
        }
    }

    /// The page at this place.
    pub fn page(&self, at: u32) -> Option<u32>
        ensures { result ≡ slice_get self.now at }
    {
        match self.change {
            Change::Nothing => None,
            Change::One { page } => (at == 0).then_some(page),
            Change::Written => self.written.get(at as usize).copied(),
            Change::All { count } => page_of_all(count, at),
        }
    }
}
