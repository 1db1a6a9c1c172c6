//! The plain graph beside the transactions: a fixed sequence of mixed calls has the replies that the
//! graph gives.
ghost use Rattle.std.specs.Prelude.{◌<◌};
ghost use Rattle.transactions.specs.Standing.{IsReadyForSome};

use crate::tests::player::Player;
use object_graph::{Call, Graph, MOST_PAGES, Memory, Name, ROOT, Refusal, Reply, SLOTS_PER_PAGE};
use std::alloc::Global;
use std::test::Fail;

/// The pages of the store.
const PAGES: u32 = 4;

/// The calls of a transaction between its beginning and its end.
const CALLS: u32 = 60;

/// Numbers that look mixed, and are the same each time.
#[derive(Drop)]
struct Mixed {
    state: u64,
}

impl Mixed {
    fn below(&mut self, limit: u64) -> u64
        requires { 0 < limit }
        ensures { result < limit }
    {
        self.state = self
            .state
            .wrapping_mul(6364136223846793005)
            .wrapping_add(1442695040888963407);
        (self.state >> 33) % limit
    }

    /// Mostly a name that is known, else one that may be.
    fn name(&mut self, known: &[Name]) -> Name {
        if known.is_empty() || self.below(8) == 0 {
            return Name::at(self.below(4) as u32, self.below(20) as u16, 1);
        }
        known[self.below(known.len() as u64) as usize]
    }

    fn target(&mut self, known: &[Name]) -> Option<Name> {
        match self.below(4) {
            0 => None,
            _ => Some(self.name(known)),
        }
    }

    fn call(&mut self, txn: u32, known: &[Name]) -> Call {
        match self.below(8) {
            0 | 1 => Call::Get {
                txn,
                name: self.name(known),
                field: self.below(5) as u32,
            },
            2 => Call::Number {
                txn,
                name: self.name(known),
            },
            3 | 4 => Call::Set {
                txn,
                name: self.name(known),
                field: self.below(5) as u32,
                target: self.target(known),
            },
            5 => Call::Put {
                txn,
                name: self.name(known),
                value: self.below(1000),
            },
            _ => Call::New {
                txn,
                page: self.below(5) as u32,
            },
        }
    }
}

/// What a call changes in a graph.
#[derive(Clone, Copy)]
enum Change {
    Add {
        name: Name,
    },
    Link {
        name: Name,
        field: u32,
        target: Option<Name>,
    },
    Put {
        name: Name,
        value: u64,
    },
}

fn apply(graph: &mut Graph, change: &Change) -> Result<(), Memory> {
    match *change {
        Change::Add { name } => {
            graph.add(name, 0)?;
        }
        Change::Link {
            name,
            field,
            target,
        } => {
            if let Some(object) = graph.object(name) {
                if (field as usize) < object.refs.len() {
                    graph.set_ref(name, field, target);
                }
            }
        }
        Change::Put { name, value } => {
            if graph.object(name).is_some() {
                graph.put(name, value);
            }
        }
    }
    Ok(())
}

/// The graph that changes make.
fn graph_of(alloc: Global, changes: &[Change]) -> Result<Graph, Memory> {
    let mut graph = Graph::new(alloc)?;
    for at in 0..changes.len() {
        apply(&mut graph, &changes[at])?;
    }
    Ok(graph)
}

/// A store of one transaction at a time over plain graphs.
#[derive(Drop)]
struct Plain {
    alloc: Global,
    /// What was committed.
    kept: Vec<Change>,
    /// The same, and what the open transaction changed.
    changes: Vec<Change>,
    /// The graph that the open transaction sees.
    seen: Graph,
    known: Vec<Name>,
    commits: u64,
}

fn refused(why: Refusal) -> Reply {
    Reply::Refused { why }
}

impl Plain {
    fn new(alloc: Global) -> Result<Plain, Memory> {
        Ok(Plain {
            alloc,
            kept: Vec::new(alloc),
            changes: Vec::new(alloc),
            seen: Graph::new(alloc)?,
            known: Vec::new(alloc),
            commits: 0,
        })
    }

    fn knows(&self, name: Name) -> bool {
        self.known.iter().any(|known| *known == name)
    }

    fn knows_target(&self, target: &Option<Name>) -> bool {
        match target {
            None => true,
            Some(name) => self.knows(*name),
        }
    }

    fn change(&mut self, change: &Change) -> Result<Reply, Memory> {
        apply(&mut self.seen, change)?;
        self.changes.push(*change)?;
        Ok(Reply::Done)
    }

    /// A transaction begins on what was committed.
    fn begin(&mut self) -> Result<Reply, Memory> {
        self.seen = graph_of(self.alloc, &self.kept)?;
        self.changes = self.kept.clone()?;
        self.known = vec![in self.alloc; ROOT]?;
        Ok(Reply::Done)
    }

    fn get(&mut self, name: Name, field: u32) -> Result<Reply, Memory> {
        let Some(object) = self.seen.object(name) else {
            return Ok(refused(Refusal::Stranger));
        };
        if field as usize >= object.refs.len() {
            return Ok(refused(Refusal::BadField));
        }
        let target = object.refs[field as usize];
        if let Some(name) = target {
            self.known.push(name)?;
        }
        Ok(Reply::Ref { target })
    }

    fn number(&self, name: Name) -> Reply {
        match self.seen.object(name) {
            Some(object) => Reply::Num {
                value: object.number,
            },
            None => refused(Refusal::Stranger),
        }
    }

    /// The least slot of a page that no object has.
    fn free_slot(&self, page: u32) -> Option<Name>
        requires { page < MOST_PAGES }
    {
        for slot in 0..SLOTS_PER_PAGE as u16 {
            let name = Name::at(page, slot, 1);
            if self.seen.object(name).is_none() {
                return Some(name);
            }
        }
        None
    }

    fn create(&mut self, page: u32) -> Result<Reply, Memory> {
        if page >= PAGES {
            return Ok(refused(Refusal::NoPage));
        }
        let Some(name) = self.free_slot(page) else {
            return Ok(refused(Refusal::PageFull { page }));
        };
        self.change(&Change::Add { name })?;
        self.known.push(name)?;
        Ok(Reply::Made { name })
    }

    fn commit(&mut self) -> Result<Reply, Memory> {
        self.kept = self.changes.clone()?;
        self.commits = self.commits.saturating_add(1);
        Ok(Reply::Committed {
            commits: self.commits,
        })
    }

    /// The reply to a call.
    fn answer(&mut self, call: &Call) -> Result<Reply, Memory> {
        match *call {
            Call::Begin { .. } => self.begin(),
            Call::Get { name, .. } | Call::Number { name, .. } | Call::Put { name, .. }
                if !self.knows(name) => Ok(refused(Refusal::Stranger)),
            Call::Get { name, field, .. } => self.get(name, field),
            Call::Number { name, .. } => Ok(self.number(name)),
            Call::Set { name, target, .. } if !self.knows(name) || !self.knows_target(&target) =>
                Ok(refused(Refusal::Stranger)),
            Call::Set { field, .. } if field > 3 => Ok(refused(Refusal::BadField)),
            Call::Set {
                name,
                field,
                target,
                ..
            } => self.change(&Change::Link {
                name,
                field,
                target,
            }),
            Call::Put { name, value, .. } => self.change(&Change::Put { name, value }),
            Call::New { page, .. } => self.create(page),
            Call::Commit { .. } => self.commit(),
            _ => Ok(Reply::Done),
        }
    }
}

/// A call, and how it was answered.
type Answer = (Call, Reply);

/// Makes a call of both. Where they answer otherwise, that of the transactions is the answer.
fn call_both(player: &mut Player, plain: &mut Plain, call: &Call) -> Result<Option<Answer>, Memory>
    requires { IsReadyForSome player.old.store }
    ensures { IsReadyForSome player.new.store }
{
    let expected = plain.answer(call)?;
    match player.expect(call, &expected) {
        Ok(()) => Ok(None),
        Err(reply) => Ok(Some((*call, reply))),
    }
}

/// A whole transaction, which is committed or not.
fn one_transaction(
    player: &mut Player,
    plain: &mut Plain,
    mixed: &mut Mixed,
    txn: u32,
) -> Result<Option<Answer>, Memory>
    requires { IsReadyForSome player.old.store }
    ensures { IsReadyForSome player.new.store }
{
    if let Some(answer) = call_both(player, plain, &Call::Begin { txn })? {
        return Ok(Some(answer));
    }
    for _ in 0..CALLS {
        let call = mixed.call(txn, &plain.known);
        if let Some(answer) = call_both(player, plain, &call)? {
            return Ok(Some(answer));
        }
    }
    match mixed.below(3) {
        0 => call_both(player, plain, &Call::Abort { txn }),
        _ => call_both(player, plain, &Call::Commit { txn }),
    }
}

#[test]
fn mixed_calls_are_answered_as_by_the_plain_graph(rt: HostRuntime) -> Result<(), Fail> {
    let mut player = Player::new(rt.alloc(), PAGES)?;
    let mut plain = Plain::new(rt.alloc())?;
    let mut mixed = Mixed { state: 1 };
    for txn in 1..17 {
        assert_eq!(rt;
            one_transaction(&mut player, &mut plain, &mut mixed, txn)?,
            None
        );
    }
    Ok(())
}
