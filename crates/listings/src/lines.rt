use crate::reading::{at, damaged, try_all};
use cases::Tally;
use lists::LineFault::{Count, Letter, Ring};
use lists::WholeFault::Unended;
use std::io;

// Faults of a file as a whole.
pub fn whole_files(tally: &mut Tally<'_>) -> io::Result<()> {
    let cases = [
        damaged("an empty file", b"", (12, 0, 0), Unended),
        damaged("no last line end", b"S,B,1,0\nE,0", (12, 0, 0), Unended),
        damaged(
            "a carriage return at the end",
            b"S,B,1,0\nE,0\n\r",
            (12, 0, 0),
            Unended,
        ),
        damaged("no line end at all", b"S", (12, 0, 0), Unended),
    ];
    try_all(tally, &cases)
}

// First lines whose letter is not S.
pub fn start_letters(tally: &mut Tally<'_>) -> io::Result<()> {
    let fault = at(1, 1, Letter);
    let cases = [
        damaged("a line end alone", b"\n", (13, 1, 1), fault),
        damaged(
            "an empty first line",
            b"\nS,B,1,0\nE,0\n",
            (13, 1, 1),
            fault,
        ),
        damaged("a small s", b"s,B,1,0\nE,0\n", (13, 1, 1), fault),
        damaged("SS", b"SS,B,1,0\nE,0\n", (13, 1, 1), fault),
        damaged("a space before S", b" S,B,1,0\nE,0\n", (13, 1, 1), fault),
        damaged("a matrix line first", b"M,1\nE,1\n", (13, 1, 1), fault),
        damaged("an end line first", b"E,0\n", (13, 1, 1), fault),
        damaged("a comma first", b",B,1,0\nE,0\n", (13, 1, 1), fault),
        damaged(
            "a byte above 127 first",
            b"\xd3,B,1,0\nE,0\n",
            (13, 1, 1),
            fault,
        ),
    ];
    try_all(tally, &cases)
}

// Later lines whose letter is neither M nor E, and lines behind E.
pub fn body_letters(tally: &mut Tally<'_>) -> io::Result<()> {
    let letter = |line| at(line, 1, Letter);
    let cases = [
        damaged(
            "a second S",
            b"S,B,1,0\nS,B,1,0\nE,0\n",
            (13, 2, 1),
            letter(2),
        ),
        damaged(
            "an empty second line",
            b"S,B,1,0\n\nE,0\n",
            (13, 2, 1),
            letter(2),
        ),
        damaged("a small m", b"S,B,1,0\nm,1\nE,1\n", (13, 2, 1), letter(2)),
        damaged("MM", b"S,B,1,0\nMM,1\nE,1\n", (13, 2, 1), letter(2)),
        damaged(
            "a small e in line 3",
            b"S,B,1,0\nM,1\ne,1\n",
            (13, 3, 1),
            letter(3),
        ),
        damaged(
            "M and a carriage return",
            b"S,B,1,0\nM,1\nM\r\nE,2\n",
            (13, 3, 1),
            letter(3),
        ),
        damaged(
            "no E behind the header",
            b"S,B,1,0\n",
            (13, 2, 1),
            letter(2),
        ),
        damaged(
            "no E behind two matrices",
            b"S,B,1,0\nM,1\nM,0\n",
            (13, 4, 1),
            letter(4),
        ),
        damaged(
            "an empty line behind E",
            b"S,B,1,0\nE,0\n\n",
            (13, 3, 1),
            letter(3),
        ),
        damaged(
            "a matrix line behind E",
            b"S,B,1,0\nM,1\nE,1\nM,1\n",
            (13, 4, 1),
            letter(4),
        ),
        damaged("a second E", b"S,B,1,0\nE,0\nE,0\n", (13, 3, 1), letter(3)),
        damaged(
            "a space behind E's line",
            b"S,B,1,0\nE,0\n \n",
            (13, 3, 1),
            letter(3),
        ),
    ];
    try_all(tally, &cases)
}

// Too few fields and too many.
pub fn counts(tally: &mut Tally<'_>) -> io::Result<()> {
    let cases = [
        damaged("S alone", b"S\nE,0\n", (14, 1, 2), at(1, 2, Count)),
        damaged(
            "a header without its bound",
            b"S,B,1\nE,0\n",
            (14, 1, 4),
            at(1, 4, Count),
        ),
        damaged(
            "a header with one field more",
            b"S,B,1,0,0\nE,0\n",
            (14, 1, 5),
            at(1, 5, Count),
        ),
        damaged(
            "a header with three fields more",
            b"S,B,1,0,0,0,0\nE,0\n",
            (14, 1, 5),
            at(1, 5, Count),
        ),
        damaged(
            "a comma behind the header",
            b"S,B,1,0,\nE,0\n",
            (14, 1, 5),
            at(1, 5, Count),
        ),
        damaged("M alone", b"S,B,1,0\nM\nE,1\n", (14, 2, 2), at(2, 2, Count)),
        damaged(
            "a matrix without its last code",
            b"S,B,2,0\nM,0,1,1\nE,1\n",
            (14, 2, 5),
            at(2, 5, Count),
        ),
        damaged(
            "a matrix with one code too many",
            b"S,B,2,0\nM,0,1,1,0,1\nE,1\n",
            (14, 2, 6),
            at(2, 6, Count),
        ),
        damaged(
            "a comma behind a matrix",
            b"S,B,2,0\nM,0,1,1,0,\nE,1\n",
            (14, 2, 6),
            at(2, 6, Count),
        ),
        damaged(
            "a short third line",
            b"S,P,3,0\nM,0,1,2,3,4,5,6,7,8\nM,0,1\nE,2\n",
            (14, 3, 4),
            at(3, 4, Count),
        ),
        damaged("E alone", b"S,B,1,0\nE\n", (14, 2, 2), at(2, 2, Count)),
        damaged(
            "E with two numbers",
            b"S,B,1,0\nM,1\nE,1,1\n",
            (14, 3, 3),
            at(3, 3, Count),
        ),
        damaged(
            "a comma behind E's number",
            b"S,B,1,0\nE,0,\n",
            (14, 2, 3),
            at(2, 3, Count),
        ),
    ];
    try_all(tally, &cases)
}

// Ring letters that are none.
pub fn ring_letters(tally: &mut Tally<'_>) -> io::Result<()> {
    let fault = at(1, 2, Ring);
    let cases = [
        damaged("a small b", b"S,b,1,0\nE,0\n", (16, 1, 2), fault),
        damaged("no ring letter", b"S,,1,0\nE,0\n", (16, 1, 2), fault),
        damaged("BB", b"S,BB,1,0\nE,0\n", (16, 1, 2), fault),
        damaged("X", b"S,X,1,0\nE,0\n", (16, 1, 2), fault),
        damaged("a space before W", b"S, W,1,0\nE,0\n", (16, 1, 2), fault),
        damaged("a byte above 127", b"S,\xc2,1,0\nE,0\n", (16, 1, 2), fault),
    ];
    try_all(tally, &cases)
}
