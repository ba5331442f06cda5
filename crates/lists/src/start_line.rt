ghost use Rattle.std.specs.Prelude.{◌≡◌};
ghost use Rattle.lists.specs.Bytes.{comma, line_end};
ghost use Rattle.lists.specs.Cursor.{left};
ghost use Rattle.lists.specs.FileChecks.{letter_in, lines_handed, opened};
ghost use Rattle.lists.specs.LineChecks.{checked_fields, checked_header, letter_named};
ghost use Rattle.lists.specs.Split.{split};

use crate::fault::{FileFault, LineFault};
use crate::header::Header;
use crate::kind::Kind;
use crate::letter::{RingLetter, letter_of};
use crate::line::Line;
use crate::lines::Lines;

fn read_fields(line: Line<'_>) -> Result<Header, FileFault>
    ensures { result ≡ checked_fields line.entry.number (split comma line.entry.bytes.now) }
{
    line.check_count(3)?;
    Ok(Header {
        letter: line.field(2).ring()?,
        size: line.field(3).size()?,
        bound: line.field(4).bound()?,
    })
}

pub(crate) fn read_header(line: Line<'_>) -> Result<Header, FileFault>
    ensures { result ≡ checked_header line.entry.number (split comma line.entry.bytes.now) }
{
    match line.kind() {
        Some(Kind::Start) => read_fields(line),
        _ => Err(LineFault::Letter.at(line.number, 1)),
    }
}

fn letter_named(line: Line<'_>) -> Option<RingLetter>
    ensures { result ≡ letter_named (split comma line.entry.bytes.now) }
{
    match line.kind() {
        Some(Kind::Start) if line.count() == 3 => letter_of(line.field(2).bytes),
        _ => None,
    }
}

fn letter_of_first(mut lines: Lines<'_>) -> Option<RingLetter>
    ensures { result ≡ letter_in (left line_end lines.entry.parts.rest) }
{
    letter_named(lines.next()?)
}

// The ring letter that a file names, where its first line is a header of the right count of fields; whatever stands behind the
// letter is not looked at.
pub fn header_letter(file: &[u8]) -> Option<RingLetter>
    ensures { result ≡ letter_in (lines_handed (opened file.now) file.now) }
{
    letter_of_first(Lines::new(file))
}
