ghost use Rattle.std.specs.Prelude.{◌≤◌, IfOk};

use crate::answers::{Answer, code_count};
use cases::Part::{self, Word};
use cases::{BYTES, CODES, CallError, Calls, NONE, Values, put};
use lists::{Header, LEAST_PLACE, Lines, Listing, RingLetter, read, write};

fn letter(part: &Part<'_>) -> Result<RingLetter, CallError> {
    match part {
        Word("B") => Ok(RingLetter::B),
        Word("P") => Ok(RingLetter::P),
        Word("Y") => Ok(RingLetter::Y),
        Word("W") => Ok(RingLetter::W),
        _ => Err(CallError::NotUnderstood),
    }
}

// How long a place is to be, as a part says, if a case can hold what is written there.
fn room(part: &Part<'_>, greatest: usize) -> Result<usize, CallError>
    ensures { IfOk result (λ n. n ≤ greatest) }
{
    match part.number()? {
        length if length <= greatest => Ok(length),
        _ => Err(CallError::NotUnderstood),
    }
}

fn write_list(
    letter: RingLetter,
    size: u32,
    bound: u32,
    codes: &[u32],
    place: &mut [u8],
) -> Answer {
    match write(letter, size, bound, codes, place) {
        Ok(length) => Answer::File(length),
        Err(fault) => Answer::RefusedList(fault),
    }
}

// Whether a list is written as this file.
fn is_written_as(header: &Header, codes: &[u32], file: &[u8]) -> bool {
    let (size, bound) = (header.size.rows() as u32, header.bound.degree() as u32);
    let mut due = NONE.bytes;
    put(&mut due, file);
    let mut again = NONE.bytes;
    write(header.letter, size, bound, codes, &mut again) == Ok(file.len()) && again == due
}

// What the list of a file is answered with. It is written again, which should give the file.
fn listed(listing: Listing, file: &[u8], came: &Values) -> Answer {
    let codes = came.list(0, code_count(&listing));
    if is_written_as(&listing.header, codes, file) {
        Answer::List(listing)
    } else {
        Answer::WrittenOtherwise(listing)
    }
}

// Reads a file into a place of so many codes.
fn read_file(file: &[u8], length: usize, came: &mut Values) -> Answer
    requires { length ≤ 16400 }
{
    match read(file, &mut came.codes[..length]) {
        Ok(listing) => listed(listing, file, came),
        Err(fault) => Answer::RefusedFile(fault),
    }
}

// The lines of a file and their numbers, as far as there is room. Behind the last there is none, however often it is asked for.
fn file_lines(file: &[u8], came: &mut Values) -> Answer {
    let mut lines = Lines::new(file);
    let mut count = 0;
    let mut end = 0;
    for _ in 0..BYTES {
        if let Some(line) = lines.next_line() {
            if count < CODES {
                came.codes[count] = line.number;
                count += 1;
            }
            for byte in line.bytes {
                if end < BYTES {
                    came.bytes[end] = *byte;
                    end += 1;
                }
            }
            if end < BYTES {
                came.bytes[end] = b'\n';
                end += 1;
            }
        }
    }
    Answer::Lines(count, end)
}

// The calls on list files.
#[derive(Clone, Copy)]
pub struct ListCalls;

impl Calls for ListCalls {
    type Answer = Answer;

    // A file is read into the least place where no other is said.
    fn carry_out(&mut self, call: &[Part<'_>], came: &mut Values) -> Result<Answer, CallError> {
        match call {
            [Word("read"), file] => Ok(read_file(file.text()?, LEAST_PLACE, came)),
            [Word("read"), file, Word("place"), length] => {
                let length = room(length, CODES)?;
                Ok(read_file(file.text()?, length, came))
            }
            [
                Word("write"),
                ring,
                Word("size"),
                size,
                Word("bound"),
                bound,
                Word("codes"),
                codes,
                Word("place"),
                length,
            ] => {
                let letter = letter(ring)?;
                let size = u32::try_from(size.number()?)?;
                let bound = u32::try_from(bound.number()?)?;
                let length = room(length, BYTES)?;
                let place = &mut came.bytes[..length];
                Ok(write_list(letter, size, bound, codes.codes()?, place))
            }
            [Word("lines"), file] => Ok(file_lines(file.text()?, came)),
            _ => Err(CallError::NotUnderstood),
        }
    }
}
