use crate::reading::{at, damaged, try_all};
use cases::Tally;
use lists::LineFault::{Count, EndCount, Letter, Ring};
use lists::NumberFault::NotNumber;
use lists::WholeFault::Unended;
use recurrences::Refusal::{Bound, Code, Size};
use std::io;

// Sizes that are no numbers, or no sizes.
pub fn sizes(tally: &mut Tally<'_>) -> io::Result<()> {
    let no_number = at(1, 3, NotNumber);
    let no_size = at(1, 3, Size);
    let cases = [
        damaged("an empty size", b"S,B,,0\nE,0\n", (15, 1, 3), no_number),
        damaged("the size 01", b"S,B,01,0\nE,0\n", (15, 1, 3), no_number),
        damaged("the size 00", b"S,B,00,0\nE,0\n", (15, 1, 3), no_number),
        damaged("the size +1", b"S,B,+1,0\nE,0\n", (15, 1, 3), no_number),
        damaged("the size -1", b"S,B,-1,0\nE,0\n", (15, 1, 3), no_number),
        damaged(
            "the size 1 and a space",
            b"S,B,1 ,0\nE,0\n",
            (15, 1, 3),
            no_number,
        ),
        damaged(
            "the size 4294967296",
            b"S,B,4294967296,0\nE,0\n",
            (15, 1, 3),
            no_number,
        ),
        damaged("the size 0", b"S,B,0,0\nE,0\n", (1, 1, 3), no_size),
        damaged("the size 5", b"S,B,5,0\nE,0\n", (1, 1, 3), no_size),
        damaged(
            "the size 4294967295",
            b"S,B,4294967295,0\nE,0\n",
            (1, 1, 3),
            no_size,
        ),
    ];
    try_all(tally, &cases)
}

// Bounds that are no numbers, or no bounds.
pub fn bounds(tally: &mut Tally<'_>) -> io::Result<()> {
    let no_number = at(1, 4, NotNumber);
    let no_bound = at(1, 4, Bound);
    let cases = [
        damaged("an empty bound", b"S,P,1,\nE,0\n", (15, 1, 4), no_number),
        damaged("the bound 064", b"S,P,1,064\nE,0\n", (15, 1, 4), no_number),
        damaged(
            "a bound and a carriage return",
            b"S,P,1,64\r\nE,0\n",
            (15, 1, 4),
            no_number,
        ),
        damaged(
            "a hexadecimal bound",
            b"S,P,1,0x40\nE,0\n",
            (15, 1, 4),
            no_number,
        ),
        damaged(
            "a bound of 20 digits",
            b"S,P,1,18446744073709551616\nE,0\n",
            (15, 1, 4),
            no_number,
        ),
        damaged(
            "the bound 4294967296",
            b"S,P,1,4294967296\nE,0\n",
            (15, 1, 4),
            no_number,
        ),
        damaged("the bound 65", b"S,P,1,65\nE,0\n", (2, 1, 4), no_bound),
        damaged(
            "the bound 4294967295",
            b"S,P,1,4294967295\nE,0\n",
            (2, 1, 4),
            no_bound,
        ),
    ];
    try_all(tally, &cases)
}

// Codes that are no numbers, or no codes of the ring.
pub fn codes(tally: &mut Tally<'_>) -> io::Result<()> {
    let cases = [
        damaged(
            "an empty first code",
            b"S,B,2,0\nM,,1,1,0\nE,1\n",
            (15, 2, 2),
            at(2, 2, NotNumber),
        ),
        damaged(
            "an empty last code",
            b"S,B,2,0\nM,0,1,1,\nE,1\n",
            (15, 2, 5),
            at(2, 5, NotNumber),
        ),
        damaged(
            "the code 00",
            b"S,B,1,0\nM,00\nE,1\n",
            (15, 2, 2),
            at(2, 2, NotNumber),
        ),
        damaged(
            "the code 01 in line 3",
            b"S,B,2,0\nM,0,1,1,0\nM,0,1,01,0\nE,2\n",
            (15, 3, 4),
            at(3, 4, NotNumber),
        ),
        damaged(
            "a code and a carriage return",
            b"S,B,1,0\nM,1\r\nE,1\n",
            (15, 2, 2),
            at(2, 2, NotNumber),
        ),
        damaged(
            "a byte above 127 in a code",
            b"S,Y,1,0\nM,1\xb2\nE,1\n",
            (15, 2, 2),
            at(2, 2, NotNumber),
        ),
        damaged(
            "the word 4294967296",
            b"S,W,1,0\nM,4294967296\nE,1\n",
            (15, 2, 2),
            at(2, 2, NotNumber),
        ),
        damaged(
            "the bit 4294967296",
            b"S,B,1,0\nM,4294967296\nE,1\n",
            (15, 2, 2),
            at(2, 2, NotNumber),
        ),
        damaged(
            "the bit 2",
            b"S,B,1,0\nM,2\nE,1\n",
            (5, 2, 2),
            at(2, 2, Code),
        ),
        damaged(
            "the code 101 modulo 101",
            b"S,P,1,0\nM,100\nM,101\nE,2\n",
            (5, 3, 2),
            at(3, 2, Code),
        ),
        damaged(
            "the byte 256",
            b"S,Y,2,0\nM,255,255,255,256\nE,1\n",
            (5, 2, 5),
            at(2, 5, Code),
        ),
        damaged(
            "the bit 4294967295",
            b"S,B,3,0\nM,0,0,0,0,4294967295,0,0,0,0\nE,1\n",
            (5, 2, 6),
            at(2, 6, Code),
        ),
    ];
    try_all(tally, &cases)
}

// Counts of matrices that are no numbers, or wrong.
pub fn ends(tally: &mut Tally<'_>) -> io::Result<()> {
    let cases = [
        damaged(
            "an empty count",
            b"S,B,1,0\nE,\n",
            (15, 2, 2),
            at(2, 2, NotNumber),
        ),
        damaged(
            "the count 00",
            b"S,B,1,0\nE,00\n",
            (15, 2, 2),
            at(2, 2, NotNumber),
        ),
        damaged(
            "the count 01",
            b"S,B,1,0\nM,1\nE,01\n",
            (15, 3, 2),
            at(3, 2, NotNumber),
        ),
        damaged(
            "a count and a carriage return",
            b"S,B,1,0\nM,1\nE,1\r\n",
            (15, 3, 2),
            at(3, 2, NotNumber),
        ),
        damaged(
            "the count 4294967296",
            b"S,B,1,0\nE,4294967296\n",
            (15, 2, 2),
            at(2, 2, NotNumber),
        ),
        damaged(
            "the count 1 of none",
            b"S,B,1,0\nE,1\n",
            (17, 2, 2),
            at(2, 2, EndCount),
        ),
        damaged(
            "the count 0 of one",
            b"S,B,1,0\nM,1\nE,0\n",
            (17, 3, 2),
            at(3, 2, EndCount),
        ),
        damaged(
            "the count 3 of two",
            b"S,B,1,0\nM,1\nM,1\nE,3\n",
            (17, 4, 2),
            at(4, 2, EndCount),
        ),
        damaged(
            "the count 4294967295 of none",
            b"S,B,1,0\nE,4294967295\n",
            (17, 2, 2),
            at(2, 2, EndCount),
        ),
    ];
    try_all(tally, &cases)
}

// Files with several faults: the first is named.
pub fn first_faults(tally: &mut Tally<'_>) -> io::Result<()> {
    let cases = [
        damaged(
            "a wrong letter before a wrong count",
            b"X,X\nX\n",
            (13, 1, 1),
            at(1, 1, Letter),
        ),
        damaged(
            "a wrong count before a wrong ring letter",
            b"S,X,9\nE,0\n",
            (14, 1, 4),
            at(1, 4, Count),
        ),
        damaged(
            "a wrong ring letter before a wrong size",
            b"S,X,9,99\nE,0\n",
            (16, 1, 2),
            at(1, 2, Ring),
        ),
        damaged(
            "a wrong size before a bound that is no number",
            b"S,B,9,x\nE,0\n",
            (1, 1, 3),
            at(1, 3, Size),
        ),
        damaged(
            "a size that is no number before a wrong bound",
            b"S,B,x,99\nE,0\n",
            (15, 1, 3),
            at(1, 3, NotNumber),
        ),
        damaged(
            "a wrong bound before a wrong line",
            b"S,B,1,65\nX\n",
            (2, 1, 4),
            at(1, 4, Bound),
        ),
        damaged(
            "a wrong count before a wrong code",
            b"S,B,2,0\nM,2,1,1\nE,1\n",
            (14, 2, 5),
            at(2, 5, Count),
        ),
        damaged(
            "a wrong code before one that is no number",
            b"S,B,2,0\nM,0,2,x,0\nE,1\n",
            (5, 2, 3),
            at(2, 3, Code),
        ),
        damaged(
            "one that is no number before a wrong code",
            b"S,B,2,0\nM,0,x,2,0\nE,1\n",
            (15, 2, 3),
            at(2, 3, NotNumber),
        ),
        damaged(
            "a wrong code before a wrong end",
            b"S,B,1,0\nM,1\nM,2\nE,5\n",
            (5, 3, 2),
            at(3, 2, Code),
        ),
        damaged(
            "a wrong end before a line behind it",
            b"S,B,1,0\nE,7\nM,1\n",
            (17, 2, 2),
            at(2, 2, EndCount),
        ),
        damaged(
            "a missing line end before all else",
            b"X",
            (12, 0, 0),
            Unended,
        ),
    ];
    try_all(tally, &cases)
}
