//! What no clause says: the table of names, and that the calls that take memory succeed.
ghost use Rattle.std.specs.Prelude.{◌≡◌, ◌<◌};

use crate::*;
use std::marker::Brand;
use std::sync::ledger::{Blank, Ledger};
use std::test::Fail;

#[test]
fn the_table_of_names(rt: HostRuntime) -> Result<(), Fail> {
    let table: [(u32, u16, u16, u64); 4] = [
        (0, 0, 1, 1),
        (1, 0, 1, 4294967297),
        (1, 2, 3, 4295098371),
        (1, 19, 65535, 4296278015),
    ];
    for (page, slot, generation, number) in table {
        let name = Name::of(number).ok_or("a name")?;
        assert_eq!(rt;
            (name.page(), name.slot(), name.generation()),
            (page, slot, generation)
        );
        assert_eq!(rt; name.to_u64(), number);
    }
    assert_eq!(rt; ROOT.to_u64(), 1);
    for number in [0, 0x1000_0000_0001, 0x28_0001, 0x13_0000] {
        assert_eq!(rt; Name::of(number), None);
    }
    Ok(())
}

#[test]
fn results_are_replies(rt: HostRuntime) {
    let name = Name::at(1, 2, 3);
    assert_eq!(rt; Reply::done(Ok(())), Reply::Done);
    assert_eq!(rt;
        Reply::reference(Ok(Some(name))),
        Reply::Ref { target: Some(name) }
    );
    assert_eq!(rt; Reply::number(Ok(7)), Reply::Num { value: 7 });
    assert_eq!(rt; Reply::made(Ok(name)), Reply::Made { name });
    let why = Refusal::Busy { holder: 9 };
    assert_eq!(rt; Reply::made(Err(why)), Reply::Refused { why });
}

#[test]
fn the_least_slot(rt: HostRuntime) {
    let slots = SlotSet::empty().with(39).with(7).with(21);
    assert_eq!(rt; slots.least(), Some(7));
    assert_eq!(rt; slots.without(SlotSet::empty().with(7)).least(), Some(21));
    assert_eq!(rt; slots.without(slots).least(), None);
}

/// Sets a reference where the object and the field are there.
fn link(graph: &mut Graph, from: Name, field: u32, target: Option<Name>) {
    if let Some(object) = graph.object(from) {
        if (field as usize) < object.refs.len() {
            graph.set_ref(from, field, target);
        }
    }
}

#[test]
fn a_fresh_graph_is_its_root(rt: HostRuntime) -> Result<(), Fail> {
    let graph = Graph::new(rt.alloc())?;
    let names = reached(rt.alloc(), &graph, &[ROOT])?;
    assert_eq!(rt; names.as_slice(), [ROOT].as_slice());
    Ok(())
}

#[test]
fn a_name_is_added_once(rt: HostRuntime) -> Result<(), Fail> {
    let mut graph = Graph::new(rt.alloc())?;
    let name = Name::at(1, 0, 1);
    assert!(rt; graph.add(name, 7)?);
    assert!(rt; !graph.add(name, 8)?);
    let object = graph.object(name).ok_or("the object")?;
    assert_eq!(rt; object.number, 7);
    Ok(())
}

#[test]
fn a_cycle_with_a_shared_part_is_reached(rt: HostRuntime) -> Result<(), Fail> {
    let mut graph = Graph::new(rt.alloc())?;
    let left = Name::at(1, 1, 1);
    let right = Name::at(1, 0, 1);
    let shared = Name::at(2, 0, 3);
    let apart = Name::at(0, 1, 1);
    for name in [left, right, shared, apart] {
        assert!(rt; graph.add(name, 0)?);
    }
    link(&mut graph, ROOT, 0, Some(left));
    link(&mut graph, ROOT, 3, Some(right));
    link(&mut graph, left, 1, Some(shared));
    link(&mut graph, right, 2, Some(shared));
    link(&mut graph, shared, 0, Some(ROOT));
    link(&mut graph, apart, 0, Some(right));
    let names = reached(rt.alloc(), &graph, &[ROOT])?;
    assert_eq!(rt; names.as_slice(), [ROOT, right, left, shared].as_slice());
    let names = reached(rt.alloc(), &graph, &[apart, ROOT, apart])?;
    assert_eq!(rt;
        names.as_slice(),
        [ROOT, apart, right, left, shared].as_slice()
    );
    let names = reached(rt.alloc(), &graph, &[Name::at(3, 0, 1)])?;
    assert_eq!(rt; names.len(), 0);
    Ok(())
}

/// The name at a place of a chain, twenty to a page.
fn link_at(place: u32) -> Name
    requires { place < 400 }
{
    Name::at(1 + place / 20, (place % 20) as u16, 1)
}

#[test]
fn a_chain_of_three_hundred_is_reached(rt: HostRuntime) -> Result<(), Fail> {
    let mut graph = Graph::new(rt.alloc())?;
    let mut last = ROOT;
    for place in 0..300 {
        let name = link_at(place);
        assert!(rt; graph.add(name, 0)?);
        link(&mut graph, last, 0, Some(name));
        last = name;
    }
    assert_eq!(rt; reached(rt.alloc(), &graph, &[ROOT])?.len(), 301);
    assert_eq!(rt; reached(rt.alloc(), &graph, &[link_at(100)])?.len(), 200);
    link(&mut graph, link_at(149), 0, None);
    assert_eq!(rt; reached(rt.alloc(), &graph, &[ROOT])?.len(), 151);
    Ok(())
}

/// Two ticks from a blank ledger.
fn two_steps<L: Ledger>(blank: Blank)
    requires name { blank.name ≡ L.name }
    requires parts { blank.parts ≡ L.parts }
    requires some { 0 < blank.parts }
{
    let mut steps: Steps<L> = Steps::new(blank);
    steps.tick();
    steps.tick();
    stand_at_two(&steps);
}

fn stand_at_two<L: Ledger>(_steps: &Steps<L>)
    requires { _steps.now ≡ 2 }
{}

#[test]
fn steps_are_counted_from_a_blank(_rt: HostRuntime) {
    two_steps::<Brand>(Blank::new(1));
}
