use crate::header::{Said, header};
use crate::place::UNTOUCHED_BYTE;
use cases::{Tally, holds};
use lists::RingLetter::{B, P, Y};
use lists::WholeFault::Place;
use lists::{WriteFault, write};
use recurrences::Refusal::{Bound, Code, Length, Size};
use std::io;

// A list, and what is due for it: the text that it is written as, or the fault that it is refused with, and its number.
#[derive(Clone, Copy)]
pub struct List<'a> {
    what: &'a str,
    header: Said,
    codes: &'a [u32],
    due: Result<&'a [u8], (u32, WriteFault)>,
}

pub fn unwritten<'a, E: Into<WriteFault>>(
    what: &'a str,
    number: u32,
    header: Said,
    codes: &'a [u32],
    fault: E,
) -> List<'a> {
    List {
        what,
        header,
        codes,
        due: Err((number, fault.into())),
    }
}

impl List<'_> {
    // Writes it into a place.
    pub fn try_out(&self, tally: &mut Tally<'_>, place: &mut [u8]) -> io::Result<()> {
        let what = self.what;
        let Said {
            letter,
            size,
            bound,
        } = self.header;
        match write(letter, size, bound, self.codes, place) {
            Ok(n) => {
                let right = match self.due {
                    Ok(text) => n == text.len() && holds(place, text, UNTOUCHED_BYTE),
                    Err(_) => false,
                };
                tally.tell(format_args!("writing {what}: {n} bytes"), right)
            }
            Err(fault) => {
                let number = fault.number();
                let right = self.due == Err((number, fault)) && holds(place, b"", UNTOUCHED_BYTE);
                tally.tell(format_args!("writing {what}: {number}"), right)
            }
        }
    }
}

// Lists that are refused.
pub fn lists_refused(tally: &mut Tally<'_>) -> io::Result<()> {
    let cases = [
        unwritten("the size 0", 1, header(B, 0, 0), &[], Size),
        unwritten("the size 5", 1, header(B, 5, 0), &[], Size),
        unwritten(
            "the size 4294967295",
            1,
            header(B, 4294967295, 0),
            &[],
            Size,
        ),
        unwritten("the bound 65", 2, header(P, 1, 65), &[], Bound),
        unwritten(
            "the bound 4294967295",
            2,
            header(P, 1, 4294967295),
            &[],
            Bound,
        ),
        unwritten(
            "three codes of a matrix of four",
            4,
            header(B, 2, 0),
            &[0, 1, 1],
            Length,
        ),
        unwritten(
            "one code behind a matrix of four",
            4,
            header(B, 2, 0),
            &[0, 1, 1, 0, 1],
            Length,
        ),
        unwritten("the bit 2", 5, header(B, 1, 0), &[0, 2], Code),
        unwritten("the code 101 modulo 101", 5, header(P, 1, 0), &[101], Code),
        unwritten("the byte 256", 5, header(Y, 1, 0), &[256], Code),
    ];
    for list in &cases {
        list.try_out(tally, &mut [UNTOUCHED_BYTE; 64])?;
    }
    Ok(())
}

// Lists with several faults: the first is told.
pub fn orders(tally: &mut Tally<'_>) -> io::Result<()> {
    let cases = [
        unwritten(
            "a wrong size before a wrong bound",
            1,
            header(B, 5, 65),
            &[2],
            Size,
        ),
        unwritten(
            "a wrong bound before a wrong length",
            2,
            header(B, 2, 65),
            &[2],
            Bound,
        ),
        unwritten(
            "a wrong length before a wrong code",
            4,
            header(B, 2, 0),
            &[2],
            Length,
        ),
    ];
    for list in &cases {
        list.try_out(tally, &mut [UNTOUCHED_BYTE; 64])?;
    }
    unwritten(
        "a wrong code before a short place",
        5,
        header(B, 1, 0),
        &[2],
        Code,
    )
    .try_out(tally, &mut [UNTOUCHED_BYTE; 4])
}

// Places on both sides of a text of 12 bytes.
pub fn places(tally: &mut Tally<'_>) -> io::Result<()> {
    unwritten("12 bytes into 11", 11, header(B, 1, 0), &[], Place).try_out(
        tally,
        &mut [UNTOUCHED_BYTE; 11],
    )?;
    empty("12 bytes into 12").try_out(tally, &mut [UNTOUCHED_BYTE; 12])?;
    empty("12 bytes into 20").try_out(tally, &mut [UNTOUCHED_BYTE; 20])
}

// The list of no matrix, whose text has 12 bytes.
fn empty(what: &str) -> List<'_> {
    List {
        what,
        header: header(B, 1, 0),
        codes: &[],
        due: Ok(b"S,B,1,0\nE,0\n"),
    }
}
