ghost use Rattle.std.specs.Prelude.{◌≡◌, ◌+◌};
ghost use Rattle.lists.specs.Bytes.{line_end};
ghost use Rattle.lists.specs.Cursor.{left};
ghost use Rattle.lists.specs.FileChecks.{nothing_behind, checked_body, checked_lines};

use crate::end_line::check_end;
use crate::fault::{FileFault, LineFault};
use crate::header::{Header, Listing};
use crate::kind::Kind;
use crate::lines::Lines;
use crate::matrix_line::check_matrix;
use crate::start_line::read_header;

fn check_behind(mut lines: Lines<'_>, n: u32) -> Result<u32, FileFault>
    ensures { result ≡ nothing_behind n (lines.entry.number + 1) (left line_end lines.entry.parts.rest) }
{
    match lines.next() {
        None => Ok(n),
        Some(line) => Err(LineFault::Letter.at(line.number, 1)),
    }
}

// The checks of the lines behind the header. The answer is the count of matrices.
fn check_body(header: &Header, mut lines: Lines<'_>) -> Result<u32, FileFault>
    ensures { result ≡ checked_body header.now 0 (lines.entry.number + 1) (left line_end lines.entry.parts.rest) }
{
    let mut n: u32 = 0;
    // A `for` would take the lines that `check_behind` looks at.
    while let Some(line) = lines.next() {
        match line.kind() {
            Some(Kind::Matrix) => {
                check_matrix(header, line)?;
                n += 1;
            }
            Some(Kind::End) => {
                check_end(n, line)?;
                return check_behind(lines, n);
            }
            _ => return Err(LineFault::Letter.at(line.number, 1)),
        }
    }
    Err(LineFault::Letter.at(lines.number() + 1, 1))
}

pub(crate) fn check_lines(mut lines: Lines<'_>) -> Result<Listing, FileFault>
    requires { lines.number ≡ 0 }
    ensures { result ≡ checked_lines (left line_end lines.entry.parts.rest) }
{
    let Some(line) = lines.next() else {
        return Err(LineFault::Letter.at(1, 1));
    };
    let header = read_header(line)?;
    let count = check_body(&header, lines)?;
    Ok(Listing { header, count })
}
