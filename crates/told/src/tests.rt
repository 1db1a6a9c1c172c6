//! A count that contracts alone keep.
ghost use Rattle.std.specs.Prelude.{◌≡◌, ℕ, ◌+◌, [], ◌∷◌};

use crate::{Tells, Told};
use std::marker::Model;
use std::test::Fail;

// Nothing of it is made: contracts see a number.
struct Count;

impl Model for Count {
    ghost Value = { ℕ };

    ghost view = { λ _. 0 };
}

struct Zero;

impl Tells<Count> for Zero {
    ghost tells = { λ _ n. n ≡ 0 };
}

#[derive(Drop)]
struct Added<'a, 'b> {
    before: &'a Told<Count>,
    by: &'b u64,
}

impl Tells<Count> for Added<'_, '_> {
    ghost tells = { λ s n. n ≡ s.before.now.value + s.by.now };
}

fn counted(items: &[u64]) -> (u64, Told<Count>)
    requires { items.now ≡ 3 ∷ 4 ∷ [] }
    ensures { result.0 ≡ result.1.value }
{
    let none = Told::by(&Zero);
    let one = Told::by(&Added {
        before: &none,
        by: &items[0],
    });
    let two = Told::by(&Added {
        before: &one,
        by: &items[1],
    });
    (items[0] + items[1], two)
}

#[test]
fn a_told_count_takes_no_bytes(rt: HostRuntime) -> Result<(), Fail> {
    let (count, _told) = counted(&[3, 4]);
    assert_eq!(rt; count, 7);
    assert_eq!(rt; std::mem::size_of::<Told<Count>>(), 0);
    Ok(())
}
