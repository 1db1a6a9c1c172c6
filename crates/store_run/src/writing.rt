//! Whole texts into a sink.
ghost use Rattle.std.specs.Prelude.{◌≡◌, ◌≤◌, MatchResult, OnOk};
ghost use Rattle.std.specs.Io.KnownBytes.{Appends};
ghost use Rattle.disk_trait.specs.Causes.{HasCause};
ghost use Rattle.store_run.specs.Writing.{AppendsFront};

use disk_trait::{Failed, Sink};

/// Writes all of a text, unless the sink fails.
#[inline(always)]
pub fn write_all<K: Sink>(sink: &mut K, bytes: &[u8]) -> Result<(), Failed>
    ensures written { MatchResult result (λ _. Appends (K.held sink.old) (K.held sink.new) bytes.now) (λ _. AppendsFront (K.held sink.old) (K.held sink.new) bytes.now) }
    ensures cause { HasCause (K.faults sink.old) (K.faults sink.new) result }
    ensures calm { OnOk result (K.faults sink.new ≡ K.faults sink.old) }
{
    let mut rest = bytes;
    'writing: while !rest.is_empty() {
        let count = sink.write(rest)?;
        if count == 0 {
            return Err(Failed);
        }
        rest = rest.split_at(count).1;
    }
    Ok(())
}
