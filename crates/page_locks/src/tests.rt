//! What no clause says: that locks are given, that all memory is taken at the beginning, and a table
//! of calls with the answers that the rules of strict two-phase locking give.
use crate::*;
use std::test::Fail;

/// A call of a transaction on a page.
#[derive(Clone, Copy, Debug)]
enum Wish {
    Shared(u32, u32),
    Exclusive(u32, u32),
    Release(u32),
}

/// What the wish got: none where it was given, or the holder.
fn ask(locks: &mut Locks, wish: Wish) -> Option<u32> {
    let answer = match wish {
        Wish::Shared(txn, page) if locks.admitted(txn) && page < locks.pages() => locks.try_shared(
            txn, page,
        ),
        Wish::Exclusive(txn, page) if locks.admitted(txn) && page < locks.pages() =>
            locks.try_exclusive(txn, page),
        Wish::Release(txn) => {
            locks.release_all(txn);
            Ok(())
        }
        _ => Err(Busy { holder: u32::MAX }),
    };
    match answer {
        Ok(()) => None,
        Err(Busy { holder }) => Some(holder),
    }
}

fn admit(locks: &mut Locks, txn: u32) -> bool {
    !locks.admitted(txn) && locks.admit(txn).is_ok()
}

#[test]
fn a_table_of_wishes(rt: HostRuntime) -> Result<(), Fail> {
    let mut locks = Locks::new(rt.alloc(), 2)?;
    for txn in [9, 4, 6] {
        assert!(rt; admit(&mut locks, txn));
    }
    let table = [
        (Wish::Shared(9, 0), None),
        (Wish::Shared(6, 0), None),
        (Wish::Exclusive(4, 0), Some(6)),
        (Wish::Exclusive(6, 0), Some(9)),
        (Wish::Release(9), None),
        (Wish::Exclusive(6, 0), None),
        (Wish::Exclusive(6, 0), None),
        (Wish::Shared(6, 0), None),
        (Wish::Shared(4, 0), Some(6)),
        (Wish::Exclusive(4, 1), None),
        (Wish::Shared(6, 1), Some(4)),
        (Wish::Release(6), None),
        (Wish::Shared(4, 0), None),
        (Wish::Exclusive(4, 0), None),
        (Wish::Release(4), None),
    ];
    for (wish, answer) in table {
        assert_eq!(rt; ask(&mut locks, wish), answer, "at {wish:?}");
    }
    for txn in [9, 4, 6] {
        assert!(rt; !locks.admitted(txn));
    }
    Ok(())
}

#[test]
fn sixty_four_are_admitted(rt: HostRuntime) -> Result<(), Fail> {
    let mut locks = Locks::new(rt.alloc(), 4096)?;
    for txn in 0..64 {
        assert!(rt; admit(&mut locks, txn));
    }
    assert!(rt; !admit(&mut locks, 64));
    assert_eq!(rt; ask(&mut locks, Wish::Exclusive(63, 4095)), None);
    assert_eq!(rt; ask(&mut locks, Wish::Shared(0, 4095)), Some(63));
    locks.release_all(7);
    assert!(rt; admit(&mut locks, 64));
    Ok(())
}

#[test]
fn the_count_of_pages_has_no_bound(rt: HostRuntime) -> Result<(), Fail> {
    let mut locks = Locks::new(rt.alloc(), 100_000)?;
    for txn in [1, 2] {
        assert!(rt; admit(&mut locks, txn));
    }
    assert_eq!(rt; ask(&mut locks, Wish::Exclusive(1, 99_999)), None);
    assert_eq!(rt; ask(&mut locks, Wish::Shared(2, 99_999)), Some(1));
    assert_eq!(rt; ask(&mut locks, Wish::Exclusive(2, 99_998)), None);
    Ok(())
}

#[test]
fn one_slot_notes_two_places(rt: HostRuntime) -> Result<(), Fail> {
    let mut locks = Locks::new(rt.alloc(), 2)?;
    for txn in [1, 988] {
        assert!(rt; admit(&mut locks, txn));
    }
    assert_eq!(rt; ask(&mut locks, Wish::Exclusive(1, 0)), None);
    assert_eq!(rt; ask(&mut locks, Wish::Exclusive(988, 1)), None);
    assert_eq!(rt; ask(&mut locks, Wish::Shared(988, 0)), Some(1));
    assert_eq!(rt; ask(&mut locks, Wish::Shared(1, 1)), Some(988));
    locks.release_all(988);
    assert!(rt; locks.admitted(1));
    assert_eq!(rt; ask(&mut locks, Wish::Shared(1, 1)), None);
    Ok(())
}
