//! The calls of a script, with their replies, over fresh pages.
ghost use Rattle.std.specs.Prelude.{◌≡◌, ◌<◌, ◌≤◌, length, nat_eq, IfOk, IsTrue, if◌then◌else◌};
ghost use Rattle.store_model.specs.FromImages.{has_root, IsWhole};
ghost use Rattle.page_image.specs.Slots.{taken};
ghost use Rattle.page_image.specs.Pages.{empty_page, with_slot};
ghost use Rattle.transactions.specs.Standing.{page_images, AreNumbered, IsReadyForSome};

use crate::Transactions;
use object_graph::{Call, MOST_PAGES, Memory, Name, Refusal, Reply, Steps};
use page_image::Page;
use std::alloc::Global;
use std::marker::Brand;
use std::sync::ledger::{Blank, Ledger};

/// Transactions, with how many were committed.
#[derive(Drop)]
pub struct Player {
    store: Transactions,
    commits: u64,
}

/// A page of a fresh store: the root stands on page 0.
fn fresh_page(number: u32) -> Page
    requires { number < MOST_PAGES }
    ensures { result ≡ (if nat_eq number 0 then with_slot (empty_page 0) 0 taken else empty_page number) }
{
    let mut page = Page::empty(number);
    if number == 0 {
        let Ok(_) = page.take_slot() else {
            unreachable!();
        };
    }
    page
}

fn fresh_pages(alloc: Global, count: u32) -> Result<Vec<Page>, Memory>
    requires some { 0 < count }
    requires few { count ≤ MOST_PAGES }
    ensures few { IfOk result (λ pages. length pages.items ≤ MOST_PAGES) }
    ensures numbered { IfOk result (λ pages. AreNumbered pages.items) }
    ensures root { IfOk result (λ pages. IsTrue (has_root (page_images pages.items))) }
    ensures whole { IfOk result (λ pages. IsWhole (page_images pages.items)) }
{
    let mut pages = Vec::with_capacity(alloc, count as usize)?;
    for number in 0..count {
        pages.push(fresh_page(number))?;
    }
    Ok(pages)
}

/// The reply to a call of a transaction, but for a commit.
fn transact<L: Ledger>(store: &mut Transactions, call: &Call, steps: &mut Steps<L>) -> Reply
    requires { IsReadyForSome store.old }
    ensures { IsReadyForSome store.new }
{
    match *call {
        Call::Begin { txn } => Reply::done(store.begin(txn)),
        Call::Get { txn, name, field } => Reply::reference(store.get(txn, name, field, steps)),
        Call::Number { txn, name } => Reply::number(store.number(txn, name, steps)),
        Call::Set {
            txn,
            name,
            field,
            target,
        } => Reply::done(store.set(txn, name, field, target, steps)),
        Call::Put { txn, name, value } => Reply::done(store.put(txn, name, value, steps)),
        Call::New { txn, page } => Reply::made(store.create(txn, page, steps)),
        Call::Abort { txn } => Reply::done(store.abort(txn)),
        _ => Reply::Refused {
            why: Refusal::NoCut,
        },
    }
}

/// The same, with a counter of steps of its own.
fn transact_once<L: Ledger>(store: &mut Transactions, call: &Call, blank: Blank) -> Reply
    requires name { blank.name ≡ L.name }
    requires parts { blank.parts ≡ L.parts }
    requires some { 0 < blank.parts }
    requires ready { IsReadyForSome store.old }
    ensures { IsReadyForSome store.new }
{
    let mut steps: Steps<L> = Steps::new(blank);
    transact(store, call, &mut steps)
}

impl Player {
    /// A fresh store of so many pages.
    pub fn new(alloc: Global, pages: u32) -> Result<Player, Memory>
        requires some { 0 < pages }
        requires few { pages ≤ MOST_PAGES }
        ensures { IfOk result (λ player. IsReadyForSome player.store) }
    {
        let pages = fresh_pages(alloc, pages)?;
        Ok(Player {
            store: Transactions::new(alloc, pages)?,
            commits: 0,
        })
    }

    /// The reply to a call.
    pub fn answer(&mut self, call: &Call) -> Reply
        requires { IsReadyForSome self.old.store }
        ensures { IsReadyForSome self.new.store }
    {
        match *call {
            Call::Commit { txn } => self.commit(txn),
            _ => transact_once::<Brand>(&mut self.store, call, Blank::new(1)),
        }
    }

    fn commit(&mut self, txn: u32) -> Reply
        requires { IsReadyForSome self.old.store }
        ensures { IsReadyForSome self.new.store }
    {
        if !self.store.is_open(txn) {
            return Reply::Refused {
                why: Refusal::NotOpen,
            };
        }
        self.store.finish(txn);
        self.commits = self.commits.saturating_add(1);
        Reply::Committed {
            commits: self.commits,
        }
    }

    /// Makes a call. A reply other than this one is the error.
    pub fn expect(&mut self, call: &Call, expected: &Reply) -> Result<(), Reply>
        requires { IsReadyForSome self.old.store }
        ensures { IsReadyForSome self.new.store }
    {
        let reply = self.answer(call);
        if reply == *expected {
            Ok(())
        } else {
            Err(reply)
        }
    }

    /// The first reply that differs from that of a script, with its place.
    pub fn differs(&mut self, script: &[(Call, Reply)]) -> Option<(usize, Reply)>
        requires { IsReadyForSome self.old.store }
        ensures { IsReadyForSome self.new.store }
    {
        for at in 0..script.len() {
            if let Err(reply) = self.expect(&script[at].0, &script[at].1) {
                return Some((at, reply));
            }
        }
        None
    }
}
