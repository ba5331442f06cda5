use crate::fit_checks::FitCheck;
use crate::trials::try_all;
use cases::Tally;
use rings::{Binary, Bytes, Mod101, Words};
use std::io;

const BITS: &[FitCheck<'static>] = &[
    FitCheck {
        what: "the samples 0,0,1,1,0,1 and the column 1,1,1,0",
        size: 1,
        degree: 3,
        list: &[0, 0, 1, 1, 0, 1],
        column: &[1, 1, 1, 0],
        due: Ok(None),
    },
    FitCheck {
        what: "the same with the last zero coefficient dropped",
        size: 1,
        degree: 2,
        list: &[0, 0, 1, 1, 0, 1],
        column: &[1, 1, 1],
        due: Ok(Some((2, 1))),
    },
];

const MODULO_101: &[FitCheck<'static>] = &[
    FitCheck {
        what: "the samples 1,2 and the column 1,99",
        size: 1,
        degree: 1,
        list: &[1, 2],
        column: &[1, 99],
        due: Ok(None),
    },
    FitCheck {
        what: "the samples 1,2,4,9 and the column 1,99",
        size: 1,
        degree: 1,
        list: &[1, 2, 4, 9],
        column: &[1, 99],
        due: Ok(Some((3, 1))),
    },
];

const BYTES: &[FitCheck<'static>] = &[
    FitCheck {
        what: "the samples 1,3,5,15 and the column 1,3",
        size: 1,
        degree: 1,
        list: &[1, 3, 5, 15],
        column: &[1, 3],
        due: Ok(None),
    },
    FitCheck {
        what: "the samples 1,3,5,14 and the column 1,3",
        size: 1,
        degree: 1,
        list: &[1, 3, 5, 14],
        column: &[1, 3],
        due: Ok(Some((3, 1))),
    },
];

const WORDS: &[FitCheck<'static>] = &[
    FitCheck {
        what: "the samples 1,2147483648,0 and the column 1,2147483648",
        size: 1,
        degree: 1,
        list: &[1, 2147483648, 0],
        column: &[1, 2147483648],
        due: Ok(None),
    },
    FitCheck {
        what: "the samples 1,2 and the column 1,4294967293",
        size: 1,
        degree: 1,
        list: &[1, 2],
        column: &[1, 4294967293],
        due: Ok(Some((1, 1))),
    },
];

const SHORT: &[FitCheck<'static>] = &[
    FitCheck {
        what: "an empty recording",
        size: 1,
        degree: 0,
        list: &[],
        column: &[1],
        due: Ok(None),
    },
    FitCheck {
        what: "a recording shorter than the degree",
        size: 1,
        degree: 2,
        list: &[1, 1],
        column: &[1, 0, 0],
        due: Ok(None),
    },
];

// Recordings of one lane over each ring.
pub fn fits_of_one_lane(tally: &mut Tally<'_>) -> io::Result<()> {
    try_all(Binary, tally, BITS)?;
    try_all(Mod101, tally, MODULO_101)?;
    try_all(Bytes, tally, BYTES)?;
    try_all(Words, tally, WORDS)?;
    try_all(Binary, tally, SHORT)
}
