//! The chronicle of lanes, written an entry a line.
ghost use Rattle.std.specs.Prelude.{◌≡◌, ◌+◌, ◌≤◌, MatchResult, OnOk, vec_len, vec_capacity};
ghost use Rattle.std.specs.Io.KnownBytes.{Appends};
ghost use Rattle.disk_trait.specs.Causes.{HasCause};
ghost use Rattle.store_model.specs.Texts.{chronicle_text};
ghost use Rattle.store_desk.specs.Events.{history};
ghost use Rattle.store_run.specs.Writing.{AppendsFront};
ghost use Rattle.lanes_run.specs.Buffered.{WrittenButFor};

use disk_trait::{Failed, Sink};
use script_lang::print_entry;
use store_desk::Event;
use store_run::write_all;

/// Room for the line of an entry.
const ENTRY_ROOM: usize = 256;

/// Room for the lines that are written at once.
pub const LINES_ROOM: usize = 65_536;

/// Writes the lines that the buffer holds, where it has no room for one more.
fn write_full<K: Sink>(buffer: &mut Vec<u8>, sink: &mut K) -> Result<(), Failed>
    requires { LINES_ROOM ≤ vec_capacity buffer.old }
    ensures written { MatchResult result (λ _. WrittenButFor (K.held sink.old) (K.held sink.new) buffer.new.items buffer.old.items)
        (λ _. AppendsFront (K.held sink.old) (K.held sink.new) buffer.old.items) }
    ensures left { OnOk result (vec_len buffer.new + ENTRY_ROOM ≤ LINES_ROOM) }
    ensures room { LINES_ROOM ≤ vec_capacity buffer.new }
    ensures cause { HasCause (K.faults sink.old) (K.faults sink.new) result }
    ensures calm { OnOk result (K.faults sink.new ≡ K.faults sink.old) }
{
    if buffer.len() + ENTRY_ROOM <= LINES_ROOM {
        return Ok(());
    }
    match write_all(sink, buffer) {
        Ok(()) => {
            buffer.clear();
            Ok(())
        }
        Err(failed) => Err(failed),
    }
}

/// Writes the line of each entry, unless the sink fails. Lines are gathered in the buffer, in place of
/// what it held, and written when it is full.
pub fn write_chronicle<K: Sink>(
    chronicle: &[Event],
    buffer: &mut Vec<u8>,
    sink: &mut K,
) -> Result<(), Failed>
    requires { LINES_ROOM ≤ vec_capacity buffer.old }
    ensures written { MatchResult result (λ _. Appends (K.held sink.old) (K.held sink.new) (chronicle_text (history chronicle.now)))
        (λ _. AppendsFront (K.held sink.old) (K.held sink.new) (chronicle_text (history chronicle.now))) }
    ensures cause { HasCause (K.faults sink.old) (K.faults sink.new) result }
    ensures calm { OnOk result (K.faults sink.new ≡ K.faults sink.old) }
{
    buffer.clear();
    let mut rest = chronicle;
    'entries: while let [event, later @ ..] = rest {
        print_entry(event.entry(), buffer);
        match write_full(buffer, sink) {
            Ok(()) => {}
            Err(failed) => return Err(failed),
        }
        rest = later;
    }
    write_all(sink, buffer)
}
