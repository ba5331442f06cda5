ghost use Rattle.std.specs.Prelude.{◌≡◌, ◌+◌, ◌≤◌, length, drop};
ghost use Rattle.lists.specs.Bytes.{comma};
ghost use Rattle.lists.specs.Contents.{value_of, values_of};
ghost use Rattle.lists.specs.LineChecks.{codes_from, checked_matrix};
ghost use Rattle.lists.specs.Places.{written};
ghost use Rattle.lists.specs.Split.{split};

use crate::fault::FileFault;
use crate::field::Field;
use crate::header::Header;
use crate::line::Line;
use crate::number::read_number;
use crate::put::put;

fn check_codes(q: u64, line: Line<'_>) -> Result<(), FileFault>
    requires { length (split comma line.bytes.now) ≤ 17 }
    ensures { result ≡ codes_from q line.entry.number 2 (drop 1 (split comma line.entry.bytes.now)) }
{
    for (k, bytes) in line.values().enumerate() {
        let field = Field {
            bytes,
            line: line.number,
            number: k as u32 + 2,
        };
        field.code(q)?;
    }
    Ok(())
}

// The checks of a matrix line behind its letter.
pub(crate) fn check_matrix(header: &Header, line: Line<'_>) -> Result<(), FileFault>
    ensures { result ≡ checked_matrix header.now line.entry.number (split comma line.entry.bytes.now) }
{
    line.check_count(header.size.cells())?;
    check_codes(header.letter.size(), line)
}

fn value_of(field: &[u8]) -> u32
    ensures { result ≡ value_of field.now }
{
    read_number(field).unwrap_or(0)
}

// Writes the codes of a matrix line, and answers the place behind them.
pub(crate) fn put_matrix(line: Line<'_>, place: &mut [u32], at: usize) -> usize
    requires { at + length (values_of line.bytes.now) ≤ length place.old }
    ensures next { result ≡ at + length (values_of line.entry.bytes.now) }
    ensures place { place.new ≡ written at (values_of line.entry.bytes.now) place.old }
{
    let mut next = at;
    for field in line.values() {
        next = put(place, next, value_of(field));
    }
    next
}
