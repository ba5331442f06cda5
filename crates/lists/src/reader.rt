ghost use Rattle.std.specs.Prelude.{◌≡◌, ◌+◌, ◌≤◌, length};
ghost use Rattle.lists.specs.Bytes.{line_end};
ghost use Rattle.lists.specs.Contents.{flat, matrices_in, line_codes, reading};
ghost use Rattle.lists.specs.Cursor.{left};
ghost use Rattle.lists.specs.Laws.{LawfulRead};
ghost use Rattle.lists.specs.Limits.{least_place};
ghost use Rattle.lists.specs.Places.{written};
ghost use Rattle.lists.specs.Read.{read_into, read_answer, read_place};

use crate::body::check_lines;
use crate::fault::{FileFault, WholeFault};
use crate::header::Listing;
use crate::kind::Kind;
use crate::limits::{GREATEST_LENGTH, LEAST_PLACE};
use crate::line::Line;
use crate::lines::{Lines, check_opened};
use crate::matrix_line::put_matrix;

// Writes the codes of a line, if it is a matrix line.
fn put_line(line: Line<'_>, place: &mut [u32], at: usize) -> usize
    requires { at + length (line_codes line.bytes.now) ≤ length place.old }
    ensures next { result ≡ at + length (line_codes line.entry.bytes.now) }
    ensures place { place.new ≡ written at (line_codes line.entry.bytes.now) place.old }
{
    match line.kind() {
        Some(Kind::Matrix) => put_matrix(line, place, at),
        _ => at,
    }
}

// Writes the codes of all matrix lines that are left.
fn put_codes(lines: Lines<'_>, place: &mut [u32])
    requires { length (flat (matrices_in (left line_end lines.parts.rest))) ≤ length place.old }
    ensures { place.new ≡ written 0 (flat (matrices_in (left line_end lines.entry.parts.rest))) place.old }
{
    let mut at: usize = 0;
    for line in lines {
        at = put_line(line, place, at);
    }
}

// Reads a file into a place that is long enough.
fn read_list(file: &[u8], place: &mut [u32]) -> Result<Listing, FileFault>
    requires { least_place ≤ length place.old }
    ensures answer { result ≡ read_answer (reading file.now) }
    ensures place { place.new ≡ read_place (reading file.now) place.old }
    ensures law { LawfulRead file.now place.new result }
{
    check_opened(file)?;
    let lines = Lines::new(file);
    let listing = check_lines(lines)?;
    put_codes(lines, place);
    Ok(listing)
}

// Checks a whole file, answers what it says of its list, and writes all codes in order.
pub fn read(file: &[u8], place: &mut [u32]) -> Result<Listing, FileFault>
    ensures answer { result ≡ read_answer (read_into (length place.old) file.now) }
    ensures place { place.new ≡ read_place (read_into (length place.old) file.now) place.old }
    ensures law { LawfulRead file.now place.new result }
{
    if file.len() > GREATEST_LENGTH {
        return Err(FileFault::Whole(WholeFault::TooLong));
    }
    if place.len() < LEAST_PLACE {
        return Err(FileFault::Whole(WholeFault::Place));
    }
    read_list(file, place)
}
