//! What a line means.
ghost use Rattle.std.specs.Prelude.{IfOk, IfErr};
ghost use Rattle.script_lang.specs.Script.{Says};
ghost use Rattle.store_run.specs.BadLines.{IsBad};

use script_lang::{Line, read_line};

/// What a line means, or the column in which it is bad.
#[inline(always)]
pub fn meaning_of(line: &[u8]) -> Result<Line, u32>
    ensures found { IfOk result (Says line.now) }
    ensures bad { IfErr result (IsBad line.now) }
{
    match read_line(line) {
        Ok(meaning) => Ok(meaning),
        Err(bad) => Err(bad.column),
    }
}
