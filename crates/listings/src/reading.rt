use crate::header::Said;
use crate::place::{UNTOUCHED_BYTE, UNTOUCHED_CODE};
use cases::{Tally, holds};
use lists::{FileFault, Found, Listing, read, write};
use std::io;

// The list that a file holds. Its ring's letter is told apart by the byte too.
#[derive(Clone, Copy)]
struct Held<'a> {
    letter: char,
    header: Said,
    count: u32,
    codes: &'a [u32],
}

// A file, and what is due for it: its list, or the fault that it is refused with, and its number, line and field as they
// are told.
#[derive(Clone, Copy)]
pub struct File<'a> {
    what: &'a str,
    bytes: &'a [u8],
    due: Result<Held<'a>, ((u32, u32, u32), FileFault)>,
}

pub fn good<'a>(
    what: &'a str,
    bytes: &'a [u8],
    letter: char,
    header: Said,
    count: u32,
    codes: &'a [u32],
) -> File<'a> {
    File {
        what,
        bytes,
        due: Ok(Held {
            letter,
            header,
            count,
            codes,
        }),
    }
}

pub fn damaged<'a, E: Into<FileFault>>(
    what: &'a str,
    bytes: &'a [u8],
    told: (u32, u32, u32),
    fault: E,
) -> File<'a> {
    File {
        what,
        bytes,
        due: Err((told, fault.into())),
    }
}

// A fault that is met at a line and a field.
pub fn at<E>(line: u32, field: u32, fault: E) -> Found<E> {
    Found { fault, line, field }
}

// Whether a list is written as these bytes.
fn written_as(bytes: &[u8], header: Said, codes: &[u32]) -> bool {
    let mut place = [UNTOUCHED_BYTE; 32768];
    write(header.letter, header.size, header.bound, codes, &mut place) == Ok(bytes.len())
        && holds(&place, bytes, UNTOUCHED_BYTE)
}

impl File<'_> {
    fn holds_list(&self, listing: &Listing, place: &[u32]) -> bool {
        let Ok(due) = self.due else {
            return false;
        };
        let header = Said::from(listing.header);
        header == due.header
            && header.letter.byte() as char == due.letter
            && listing.count == due.count
            && holds(place, due.codes, UNTOUCHED_CODE)
            && written_as(self.bytes, header, due.codes)
    }

    fn is_refused_with(&self, fault: FileFault) -> bool {
        match self.due {
            Err((told, due)) => {
                (fault.number(), fault.line(), fault.field()) == told && fault == due
            }
            Ok(_) => false,
        }
    }

    // Reads it into a place, and writes a list that it holds again.
    pub fn try_out(&self, tally: &mut Tally<'_>, place: &mut [u32]) -> io::Result<()> {
        let what = self.what;
        match read(self.bytes, place) {
            Ok(listing) => {
                let right = self.holds_list(&listing, place);
                let Said {
                    letter,
                    size,
                    bound,
                } = listing.header.into();
                let letter = letter.byte() as char;
                let count = listing.count;
                tally.tell(
                    format_args!(
                        "{what}: ring {letter}, size {size}, bound {bound}, {count} matrices"
                    ),
                    right,
                )
            }
            Err(fault) => {
                let right = self.is_refused_with(fault) && holds(place, &[], UNTOUCHED_CODE);
                let number = fault.number();
                let line = fault.line();
                let field = fault.field();
                tally.tell(
                    format_args!("{what}: {number} at line {line}, field {field}"),
                    right,
                )
            }
        }
    }
}

// Reads each file into a place that is long enough.
pub fn try_all(tally: &mut Tally<'_>, files: &[File<'_>]) -> io::Result<()> {
    for file in files {
        file.try_out(tally, &mut [UNTOUCHED_CODE; 16384])?;
    }
    Ok(())
}
