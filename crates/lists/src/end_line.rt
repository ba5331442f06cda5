ghost use Rattle.std.specs.Prelude.{◌≡◌};
ghost use Rattle.lists.specs.Bytes.{comma};
ghost use Rattle.lists.specs.LineChecks.{checked_end};
ghost use Rattle.lists.specs.Split.{split};

use crate::fault::{FileFault, LineFault};
use crate::line::Line;

// The checks of an end line behind its letter.
pub(crate) fn check_end(n: u32, line: Line<'_>) -> Result<(), FileFault>
    ensures { result ≡ checked_end n line.entry.number (split comma line.entry.bytes.now) }
{
    line.check_count(1)?;
    let v = line.field(2).value()?;
    if v == n {
        Ok(())
    } else {
        Err(LineFault::EndCount.at(line.number, 2))
    }
}
