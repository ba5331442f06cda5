use crate::header::header;
use crate::reading::{good, try_all};
use cases::Tally;
use lists::RingLetter::{B, P, W, Y};
use std::io;

// Good files of every ring.
pub fn rings(tally: &mut Tally<'_>) -> io::Result<()> {
    let cases = [
        good(
            "two matrices of bits",
            b"S,B,2,3\nM,0,1,1,0\nM,0,0,1,1\nE,2\n",
            'B',
            header(B, 2, 3),
            2,
            &[0, 1, 1, 0, 0, 0, 1, 1],
        ),
        good(
            "samples modulo 101",
            b"S,P,1,2\nM,0\nM,1\nM,99\nM,100\nE,4\n",
            'P',
            header(P, 1, 2),
            4,
            &[0, 1, 99, 100],
        ),
        good(
            "a matrix of bytes",
            b"S,Y,3,5\nM,255,0,1,16,27,83,202,254,128\nE,1\n",
            'Y',
            header(Y, 3, 5),
            1,
            &[255, 0, 1, 16, 27, 83, 202, 254, 128],
        ),
        good(
            "a matrix of words",
            b"S,W,2,7\nM,4294967295,2147483648,10,0\nE,1\n",
            'W',
            header(W, 2, 7),
            1,
            &[4294967295, 2147483648, 10, 0],
        ),
    ];
    try_all(tally, &cases)
}

// Lists with no matrix, and the least and the greatest sizes and bounds.
pub fn edges(tally: &mut Tally<'_>) -> io::Result<()> {
    let cases = [
        good(
            "no matrix of bits",
            b"S,B,1,0\nE,0\n",
            'B',
            header(B, 1, 0),
            0,
            &[],
        ),
        good(
            "no matrix modulo 101",
            b"S,P,4,64\nE,0\n",
            'P',
            header(P, 4, 64),
            0,
            &[],
        ),
        good(
            "no matrix of bytes",
            b"S,Y,2,1\nE,0\n",
            'Y',
            header(Y, 2, 1),
            0,
            &[],
        ),
        good(
            "no matrix of words",
            b"S,W,3,63\nE,0\n",
            'W',
            header(W, 3, 63),
            0,
            &[],
        ),
        good(
            "the greatest size",
            b"S,B,4,64\nM,1,0,0,0,0,1,0,0,0,0,1,0,0,0,0,1\nE,1\n",
            'B',
            header(B, 4, 64),
            1,
            &[1, 0, 0, 0, 0, 1, 0, 0, 0, 0, 1, 0, 0, 0, 0, 1],
        ),
    ];
    try_all(tally, &cases)
}
