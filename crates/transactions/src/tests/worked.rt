//! Worked examples.
ghost use Rattle.std.specs.Prelude.{◌<◌, ◌≤◌};
ghost use Rattle.transactions.specs.Standing.{IsReadyForSome};

use crate::tests::player::Player;
use object_graph::{Call, MOST_PAGES, Memory, Name, ROOT, Refusal, Reply};
use std::alloc::Global;
use std::test::Fail;

fn begin(txn: u32) -> Call {
    Call::Begin { txn }
}

fn get(txn: u32, name: Name, field: u32) -> Call {
    Call::Get { txn, name, field }
}

fn number(txn: u32, name: Name) -> Call {
    Call::Number { txn, name }
}

fn set(txn: u32, name: Name, field: u32, target: Option<Name>) -> Call {
    Call::Set {
        txn,
        name,
        field,
        target,
    }
}

fn put(txn: u32, name: Name, value: u64) -> Call {
    Call::Put { txn, name, value }
}

fn new(txn: u32, page: u32) -> Call {
    Call::New { txn, page }
}

fn commit(txn: u32) -> Call {
    Call::Commit { txn }
}

fn abort(txn: u32) -> Call {
    Call::Abort { txn }
}

fn committed(commits: u64) -> Reply {
    Reply::Committed { commits }
}

fn refers(target: Option<Name>) -> Reply {
    Reply::Ref { target }
}

fn has(value: u64) -> Reply {
    Reply::Num { value }
}

fn made(name: Name) -> Reply {
    Reply::Made { name }
}

fn refused(why: Refusal) -> Reply {
    Reply::Refused { why }
}

/// The first object of page 1.
fn first() -> Name {
    Name::at(1, 0, 1)
}

fn a_lock_conflict() -> [(Call, Reply); 8] {
    [
        (begin(1), Reply::Done),
        (begin(2), Reply::Done),
        (number(1, ROOT), has(0)),
        (number(2, ROOT), has(0)),
        (put(2, ROOT, 5), refused(Refusal::Busy { holder: 1 })),
        (abort(1), Reply::Done),
        (put(2, ROOT, 5), Reply::Done),
        (commit(2), committed(1)),
    ]
}

fn refusals() -> [(Call, Reply); 8] {
    [
        (begin(1), Reply::Done),
        (new(1, 1), made(first())),
        (commit(1), committed(1)),
        (begin(2), Reply::Done),
        (number(2, first()), refused(Refusal::Stranger)),
        (get(2, ROOT, 4), refused(Refusal::BadField)),
        (new(2, 2), refused(Refusal::NoPage)),
        (number(9, ROOT), refused(Refusal::NotOpen)),
    ]
}

fn full() -> Reply {
    refused(Refusal::PageFull { page: 1 })
}

/// What follows where page 1 has twenty objects of transaction 1.
fn a_full_page() -> [(Call, Reply); 6] {
    [
        (new(1, 1), full()),
        (commit(1), committed(1)),
        (begin(2), Reply::Done),
        (new(2, 1), full()),
        (begin(3), Reply::Done),
        (new(3, 1), full()),
    ]
}

fn an_unlinked_object_comes_back() -> [(Call, Reply); 13] {
    [
        (begin(1), Reply::Done),
        (new(1, 1), made(first())),
        (set(1, ROOT, 0, Some(first())), Reply::Done),
        (put(1, first(), 7), Reply::Done),
        (commit(1), committed(1)),
        (begin(2), Reply::Done),
        (get(2, ROOT, 0), refers(Some(first()))),
        (number(2, first()), has(7)),
        (set(2, ROOT, 0, None), Reply::Done),
        (get(2, ROOT, 0), refers(None)),
        (abort(2), Reply::Done),
        (begin(3), Reply::Done),
        (get(3, ROOT, 0), refers(Some(first()))),
    ]
}

fn refusals_of_sixteen_pages() -> [(Call, Reply); 5] {
    [
        (begin(1), Reply::Done),
        (number(1, first()), refused(Refusal::Stranger)),
        (get(1, ROOT, 4), refused(Refusal::BadField)),
        (new(1, 16), refused(Refusal::NoPage)),
        (abort(2), refused(Refusal::NotOpen)),
    ]
}

fn a_name_is_given_again() -> [(Call, Reply); 5] {
    [
        (begin(1), Reply::Done),
        (new(1, 1), made(first())),
        (abort(1), Reply::Done),
        (begin(2), Reply::Done),
        (new(2, 1), made(first())),
    ]
}

/// The first reply that differs, of a script over a fresh store.
fn differs(
    alloc: Global,
    pages: u32,
    script: &[(Call, Reply)],
) -> Result<Option<(usize, Reply)>, Memory>
    requires some { 0 < pages }
    requires few { pages ≤ MOST_PAGES }
{
    let mut player = Player::new(alloc, pages)?;
    Ok(player.differs(script))
}

#[test]
fn worked_scripts(rt: HostRuntime) -> Result<(), Fail> {
    let alloc = rt.alloc();
    assert_eq!(rt; differs(alloc, 2, &a_lock_conflict())?, None);
    assert_eq!(rt; differs(alloc, 2, &refusals())?, None);
    assert_eq!(rt; differs(alloc, 16, &an_unlinked_object_comes_back())?, None);
    assert_eq!(rt; differs(alloc, 16, &refusals_of_sixteen_pages())?, None);
    assert_eq!(rt; differs(alloc, 16, &a_name_is_given_again())?, None);
    Ok(())
}

#[test]
fn a_page_fills(rt: HostRuntime) -> Result<(), Fail> {
    let mut player = Player::new(rt.alloc(), 2)?;
    assert_eq!(rt; player.answer(&begin(1)), Reply::Done);
    for slot in 0..20 {
        assert_eq!(rt; player.answer(&new(1, 1)), made(Name::at(1, slot, 1)));
    }
    assert_eq!(rt; player.differs(&a_full_page()), None);
    Ok(())
}

#[test]
fn sixty_four_are_open(rt: HostRuntime) -> Result<(), Fail> {
    let mut player = Player::new(rt.alloc(), 2)?;
    for txn in 1..65 {
        assert_eq!(rt; player.answer(&begin(txn)), Reply::Done);
    }
    assert_eq!(rt; player.answer(&begin(65)), refused(Refusal::TooMany));
    assert_eq!(rt; player.answer(&begin(64)), refused(Refusal::AlreadyOpen));
    Ok(())
}

#[test]
fn sixty_four_pages_are_written(rt: HostRuntime) -> Result<(), Fail> {
    let mut player = Player::new(rt.alloc(), 66)?;
    assert_eq!(rt; player.answer(&begin(1)), Reply::Done);
    for page in 1..65 {
        assert_eq!(rt; player.answer(&new(1, page)), made(Name::at(page, 0, 1)));
    }
    assert_eq!(rt; player.answer(&new(1, 65)), refused(Refusal::TooWide));
    assert_eq!(rt; player.answer(&put(1, ROOT, 1)), refused(Refusal::TooWide));
    Ok(())
}

/// A branch is a chain of objects, twenty to a page, which begins in a field of the root. This is the
/// name at a place of it.
fn branch_name(branch: u32, place: u32) -> Name
    requires branch { branch < 4 }
    requires place { place < 1060 }
{
    Name::at(1 + branch * 53 + place / 20, (place % 20) as u16, 1)
}

/// A transaction makes a branch.
fn make_branch(player: &mut Player, branch: u32) -> Result<(), Reply>
    requires branch { branch < 4 }
    requires ready { IsReadyForSome player.old.store }
    ensures { IsReadyForSome player.new.store }
{
    let txn = branch;
    player.expect(&begin(txn), &Reply::Done)?;
    let mut last = ROOT;
    let mut field = branch;
    for place in 0..1060 {
        let name = branch_name(branch, place);
        player.expect(&new(txn, name.page()), &made(name))?;
        player.expect(&set(txn, last, field, Some(name)), &Reply::Done)?;
        last = name;
        field = 0;
    }
    player.expect(&commit(txn), &committed(u64::from(branch) + 1))
}

/// A transaction comes to know so many names of a branch.
fn walk_branch(player: &mut Player, txn: u32, branch: u32, count: u32) -> Result<(), Reply>
    requires branch { branch < 4 }
    requires count { count ≤ 1060 }
    requires ready { IsReadyForSome player.old.store }
    ensures { IsReadyForSome player.new.store }
{
    let mut last = ROOT;
    let mut field = branch;
    for place in 0..count {
        let name = branch_name(branch, place);
        player.expect(&get(txn, last, field), &refers(Some(name)))?;
        last = name;
        field = 0;
    }
    Ok(())
}

#[test]
fn four_thousand_and_ninety_six_names_are_known(rt: HostRuntime) -> Result<(), Fail> {
    let mut player = Player::new(rt.alloc(), 213)?;
    for branch in 0..4 {
        assert_eq!(rt; make_branch(&mut player, branch), Ok(()));
    }
    assert_eq!(rt; player.answer(&begin(9)), Reply::Done);
    for branch in 0..3 {
        assert_eq!(rt; walk_branch(&mut player, 9, branch, 1060), Ok(()));
    }
    assert_eq!(rt; walk_branch(&mut player, 9, 3, 915), Ok(()));
    let last = branch_name(3, 914);
    let many = refused(Refusal::KnowsTooMany);
    assert_eq!(rt; player.answer(&get(9, last, 0)), many);
    assert_eq!(rt; player.answer(&new(9, 0)), many);
    assert_eq!(rt;
        player.answer(&get(9, ROOT, 2)),
        refers(Some(branch_name(2, 0)))
    );
    assert_eq!(rt; player.answer(&get(9, last, 1)), refers(None));
    Ok(())
}
