ghost use Rattle.std.specs.Prelude.{◌≤◌, length};

use crate::header::header;
use crate::place::{UNTOUCHED_BYTE, UNTOUCHED_CODE};
use crate::reading::{damaged, good};
use crate::writing::unwritten;
use cases::Tally;
use lists::RingLetter::P;
use lists::WholeFault::{Place, TooLong};
use std::io;

// How many lines the longest files here have behind their header and before their end.
const LINES: usize = 8188;

// Puts a text at a place as far as there is room, and answers the place behind it.
fn put(file: &mut [u8], at: usize, text: &[u8]) -> usize
    ensures { result ≤ length file.old }
{
    let from = at.min(file.len());
    let to = from.saturating_add(text.len()).min(file.len());
    file[from..to].copy_from_slice(&text[..to - from]);
    to
}

// A file modulo 101 of 32,767 bytes and one more for each of the first tens, whose code is 10. It stands in an array, since
// memory that is allocated would rest on axioms of its own.
fn put_long(file: &mut [u8], tens: usize) -> usize
    ensures { result ≤ length file.old }
{
    let mut at = put(file, 0, b"S,P,1,0\n");
    for i in 0..LINES {
        let line = if i < tens {
            b"M,10\n".as_slice()
        } else {
            b"M,0\n"
        };
        at = put(file, at, line);
    }
    put(file, at, b"E,8188\n")
}

// Files of 32,768 bytes, the greatest length, and of one byte more.
pub fn lengths(tally: &mut Tally<'_>) -> io::Result<()> {
    let mut codes = [0; LINES];
    codes[0] = 10;
    let mut file = [0; 32769];
    let n = put_long(&mut file, 1);
    good(
        "32,768 bytes",
        &file[..n],
        'P',
        header(P, 1, 0),
        8188,
        &codes,
    )
    .try_out(tally, &mut [UNTOUCHED_CODE; 16384])?;
    codes[1] = 10;
    let n = put_long(&mut file, 2);
    let file = &file[..n];
    damaged("32,769 bytes", file, (10, 0, 0), TooLong).try_out(
        tally,
        &mut [UNTOUCHED_CODE; 16384],
    )?;
    damaged("32,769 bytes into 16,383 codes", file, (10, 0, 0), TooLong).try_out(
        tally,
        &mut [UNTOUCHED_CODE; 16383],
    )?;
    unwritten("32,769 bytes into 4", 10, header(P, 1, 0), &codes, TooLong).try_out(
        tally,
        &mut [UNTOUCHED_BYTE; 4],
    )
}

// Places for 16,383 codes.
pub fn places(tally: &mut Tally<'_>) -> io::Result<()> {
    damaged(
        "a good file into 16,383 codes",
        b"S,B,1,0\nE,0\n",
        (11, 0, 0),
        Place,
    )
    .try_out(tally, &mut [UNTOUCHED_CODE; 16383])?;
    damaged("an empty file into 16,383 codes", b"", (11, 0, 0), Place).try_out(
        tally,
        &mut [UNTOUCHED_CODE; 16383],
    )
}
