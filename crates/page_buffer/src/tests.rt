//! What no clause says: that a buffer is made, and a page on its way through its states.
ghost use Rattle.std.specs.Prelude.{◌≡◌, ◌<◌, length, IfOk};

use crate::*;
use object_graph::{Memory, SlotSet, Steps};
use page_image::{Page, PageFull};
use std::alloc::Global;
use std::marker::Brand;
use std::sync::ledger::{Blank, Ledger};
use std::test::Fail;

/// The numbers of the object in slot 0 of the current and of the committed image, and whether the
/// frame is dirty.
type Seen = (Option<u64>, Option<u64>, bool);

fn two_pages(alloc: Global) -> Result<Buffer, Memory>
    ensures { IfOk result (λ buffer. length buffer ≡ 2) }
{
    let pages = vec![in alloc; Page::empty(0), Page::empty(1)]?;
    Buffer::new(alloc, pages).map_err(|lack| lack.1)
}

fn seen<L: Ledger>(buffer: &Buffer, page: u32, steps: &mut Steps<L>) -> Seen
    requires { page < length buffer.now }
{
    let frame = buffer.frame(page, steps);
    (
        frame.current.object(0).map(|object| object.number),
        frame.before.object(0).map(|object| object.number),
        frame.dirty,
    )
}

fn through_its_states<L: Ledger>(buffer: &mut Buffer, blank: Blank) -> Result<[Seen; 4], PageFull>
    requires name { blank.name ≡ L.name }
    requires parts { blank.parts ≡ L.parts }
    requires some { 0 < blank.parts }
    requires pages { length buffer.old ≡ 2 }
{
    let mut steps: Steps<L> = Steps::new(blank);
    let name = buffer.take_slot(1, &mut steps)?;
    buffer.write_number(1, name.slot(), 7, &mut steps);
    let written = seen(buffer, 1, &mut steps);
    buffer.settle(1);
    let settled = seen(buffer, 1, &mut steps);
    buffer.write_number(1, name.slot(), 9, &mut steps);
    buffer.revert(1);
    let reverted = seen(buffer, 1, &mut steps);
    buffer.free(1, SlotSet::empty().with(name.slot()), &mut steps);
    let freed = seen(buffer, 1, &mut steps);
    Ok([written, settled, reverted, freed])
}

#[test]
fn a_page_is_written_settled_reverted_and_freed(rt: HostRuntime) -> Result<(), Fail> {
    let mut buffer = two_pages(rt.alloc())?;
    assert_eq!(rt; buffer.count(), 2);
    let states = through_its_states::<Brand>(&mut buffer, Blank::new(1)).map_err(|_| "no room")?;
    assert_eq!(rt;
        states,
        [
            (Some(7), None, true),
            (Some(7), Some(7), false),
            (Some(7), Some(7), false),
            (None, None, false),
        ]
    );
    Ok(())
}
