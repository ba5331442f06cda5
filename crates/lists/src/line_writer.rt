ghost use Rattle.std.specs.Prelude.{◌≡◌, length};
ghost use Rattle.lists.specs.LineText.{line_text};
ghost use Rattle.lists.specs.Write.{checked_text, line_written_into, line_place};

use crate::fault::WholeFault;
use crate::limits::GREATEST_LENGTH;
use crate::line_text::{fields_length, put_line};

// The length of a line, unless it is longer than a file may be.
fn line_length(start: &[u8], numbers: &[u32]) -> Result<usize, WholeFault>
    ensures { result ≡ checked_text (line_text start.now numbers.now) }
{
    if start.len() > GREATEST_LENGTH {
        return Err(WholeFault::TooLong);
    }
    if numbers.len() > GREATEST_LENGTH {
        return Err(WholeFault::TooLong);
    }
    let length = start.len() + fields_length(numbers) + 1;
    if length > GREATEST_LENGTH {
        Err(WholeFault::TooLong)
    } else {
        Ok(length)
    }
}

// Writes the line that begins with some bytes and goes on with numbers, each behind a comma, and answers the place behind it.
pub fn write_line(
    start: &[u8],
    numbers: &[u32],
    place: &mut [u8],
    at: usize,
) -> Result<usize, WholeFault>
    ensures answer { result ≡ line_written_into (length place.old) at (line_text start.now numbers.now) }
    ensures place { place.new ≡ line_place result at (line_text start.now numbers.now) place.old }
{
    let length = line_length(start, numbers)?;
    if place.len() < at || place.len() - at < length {
        return Err(WholeFault::Place);
    }
    Ok(put_line(place, at, start, numbers))
}
