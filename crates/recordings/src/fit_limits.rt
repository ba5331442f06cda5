use crate::fit_checks::FitCheck;
use crate::trials::try_all;
use cases::Tally;
use recurrences::Refusal;
use rings::{Binary, Mod101, Words};
use std::io;

// The size, from 0 to 5 and the greatest number.
const SIZES: &[FitCheck<'static>] = &[
    FitCheck {
        what: "nothing",
        size: 0,
        degree: 0,
        list: &[],
        column: &[],
        due: Err(Refusal::Size),
    },
    FitCheck {
        what: "one zero matrix",
        size: 1,
        degree: 0,
        list: &[0],
        column: &[1],
        due: Ok(None),
    },
    FitCheck {
        what: "one zero matrix",
        size: 4,
        degree: 0,
        list: &[0, 0, 0, 0, 0, 0, 0, 0, 0, 0, 0, 0, 0, 0, 0, 0],
        column: &[0, 0, 0, 0],
        due: Ok(None),
    },
    FitCheck {
        what: "one zero matrix",
        size: 5,
        degree: 0,
        list: &[
            0, 0, 0, 0, 0, 0, 0, 0, 0, 0, 0, 0, 0, 0, 0, 0, 0, 0, 0, 0, 0, 0, 0, 0, 0,
        ],
        column: &[0, 0, 0, 0, 0],
        due: Err(Refusal::Size),
    },
    FitCheck {
        what: "nothing",
        size: usize::MAX,
        degree: 0,
        list: &[],
        column: &[],
        due: Err(Refusal::Size),
    },
];

// The degree on both sides of its limit.
const DEGREES: &[FitCheck<'static>] = &[
    FitCheck {
        what: "a column of 65 coefficients",
        size: 1,
        degree: 64,
        list: &[0; 66],
        column: &[0; 65],
        due: Ok(None),
    },
    FitCheck {
        what: "a column of 66 coefficients",
        size: 1,
        degree: 65,
        list: &[0; 66],
        column: &[0; 66],
        due: Err(Refusal::Bound),
    },
    FitCheck {
        what: "a column of 65 coefficients, four lanes",
        size: 4,
        degree: 64,
        list: &[0; 16],
        column: &[0; 260],
        due: Ok(None),
    },
    FitCheck {
        what: "no column at all",
        size: 1,
        degree: usize::MAX,
        list: &[],
        column: &[],
        due: Err(Refusal::Bound),
    },
];

// One code too few and too many, in the column and in the list.
const LENGTHS: &[FitCheck<'static>] = &[
    FitCheck {
        what: "a column one code short",
        size: 2,
        degree: 1,
        list: &[0, 0, 0, 0, 0, 0, 0, 0],
        column: &[0, 0, 0],
        due: Err(Refusal::Length),
    },
    FitCheck {
        what: "a column of the right length",
        size: 2,
        degree: 1,
        list: &[0, 0, 0, 0, 0, 0, 0, 0],
        column: &[0, 0, 0, 0],
        due: Ok(None),
    },
    FitCheck {
        what: "a column one code long",
        size: 2,
        degree: 1,
        list: &[0, 0, 0, 0, 0, 0, 0, 0],
        column: &[0, 0, 0, 0, 0],
        due: Err(Refusal::Length),
    },
    FitCheck {
        what: "a list one code short",
        size: 2,
        degree: 1,
        list: &[0, 0, 0, 0, 0, 0, 0],
        column: &[0, 0, 0, 0],
        due: Err(Refusal::Length),
    },
    FitCheck {
        what: "a list one code long",
        size: 2,
        degree: 1,
        list: &[0, 0, 0, 0, 0, 0, 0, 0, 0],
        column: &[0, 0, 0, 0],
        due: Err(Refusal::Length),
    },
];

// Both sides of the limits of the fit check.
pub fn fit_limits(tally: &mut Tally<'_>) -> io::Result<()> {
    try_all(Binary, tally, SIZES)?;
    try_all(Mod101, tally, DEGREES)?;
    try_all(Words, tally, LENGTHS)
}
