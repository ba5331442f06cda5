use crate::fit_checks::FitCheck;
use crate::trials::try_all;
use cases::Tally;
use recurrences::Refusal;
use rings::{Binary, Bytes, Mod101, Words};
use std::io;

const CODES_MODULO_101: &[FitCheck<'static>] = &[
    FitCheck {
        what: "the code 100 in the list",
        size: 1,
        degree: 0,
        list: &[100],
        column: &[0],
        due: Ok(None),
    },
    FitCheck {
        what: "the number 101 in the list",
        size: 1,
        degree: 0,
        list: &[101],
        column: &[0],
        due: Err(Refusal::Code),
    },
    FitCheck {
        what: "the code 100 in the column",
        size: 1,
        degree: 0,
        list: &[0],
        column: &[100],
        due: Ok(None),
    },
    FitCheck {
        what: "the number 101 in the column",
        size: 1,
        degree: 0,
        list: &[0],
        column: &[101],
        due: Err(Refusal::Code),
    },
];

const CODES_OF_BITS: &[FitCheck<'static>] = &[
    FitCheck {
        what: "the code 1 in the list",
        size: 1,
        degree: 0,
        list: &[0, 1],
        column: &[0],
        due: Ok(None),
    },
    FitCheck {
        what: "the number 2 in the list",
        size: 1,
        degree: 0,
        list: &[0, 2],
        column: &[0],
        due: Err(Refusal::Code),
    },
];

const CODES_OF_BYTES: &[FitCheck<'static>] = &[
    FitCheck {
        what: "the code 255 in the column",
        size: 1,
        degree: 0,
        list: &[0],
        column: &[255],
        due: Ok(None),
    },
    FitCheck {
        what: "the number 256 in the column",
        size: 1,
        degree: 0,
        list: &[0],
        column: &[256],
        due: Err(Refusal::Code),
    },
];

const CODES_OF_WORDS: &[FitCheck<'static>] = &[FitCheck {
    what: "the code 4294967295 in both",
    size: 1,
    degree: 1,
    list: &[u32::MAX],
    column: &[u32::MAX, 0],
    due: Ok(None),
}];

// Where several conditions hold, the first of them refuses.
const ORDER: &[FitCheck<'static>] = &[
    FitCheck {
        what: "all conditions",
        size: 5,
        degree: 65,
        list: &[101],
        column: &[101],
        due: Err(Refusal::Size),
    },
    FitCheck {
        what: "all conditions but the first",
        size: 2,
        degree: 65,
        list: &[101],
        column: &[101],
        due: Err(Refusal::Bound),
    },
    FitCheck {
        what: "a wrong length and a number that is no code",
        size: 2,
        degree: 64,
        list: &[101],
        column: &[101],
        due: Err(Refusal::Length),
    },
    FitCheck {
        what: "a number that is no code alone",
        size: 1,
        degree: 0,
        list: &[101],
        column: &[1],
        due: Err(Refusal::Code),
    },
];

// Numbers that are no codes, alone and beside other faults.
pub fn fit_codes(tally: &mut Tally<'_>) -> io::Result<()> {
    try_all(Mod101, tally, CODES_MODULO_101)?;
    try_all(Binary, tally, CODES_OF_BITS)?;
    try_all(Bytes, tally, CODES_OF_BYTES)?;
    try_all(Words, tally, CODES_OF_WORDS)?;
    try_all(Mod101, tally, ORDER)
}
