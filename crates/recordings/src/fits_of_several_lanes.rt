use crate::fit_checks::FitCheck;
use crate::trials::try_all;
use cases::Tally;
use rings::{Binary, Bytes, Mod101, Words};
use std::io;

const MODULO_101: &[FitCheck<'static>] = &[
    FitCheck {
        what: "the unit matrix twice and the column 1,0,100,0",
        size: 2,
        degree: 1,
        list: &[1, 0, 0, 1, 1, 0, 0, 1],
        column: &[1, 0, 100, 0],
        due: Ok(None),
    },
    FitCheck {
        what: "the unit matrix twice and the column 0,1,0,100",
        size: 2,
        degree: 1,
        list: &[1, 0, 0, 1, 1, 0, 0, 1],
        column: &[0, 1, 0, 100],
        due: Ok(None),
    },
    FitCheck {
        what: "the unit matrix twice and the column 1,0,0,0",
        size: 2,
        degree: 1,
        list: &[1, 0, 0, 1, 1, 0, 0, 1],
        column: &[1, 0, 0, 0],
        due: Ok(Some((1, 1))),
    },
    FitCheck {
        what: "the unit matrix twice and the column 0,1,0,0",
        size: 2,
        degree: 1,
        list: &[1, 0, 0, 1, 1, 0, 0, 1],
        column: &[0, 1, 0, 0],
        due: Ok(Some((1, 2))),
    },
    FitCheck {
        what: "1,2,0,0 twice, then 1,2,0,1, and the column 99,1",
        size: 2,
        degree: 0,
        list: &[1, 2, 0, 0, 1, 2, 0, 0, 1, 2, 0, 1],
        column: &[99, 1],
        due: Ok(Some((2, 2))),
    },
];

const BYTES: &[FitCheck<'static>] = &[
    FitCheck {
        what: "the unit matrix three times, the column repeats itself",
        size: 3,
        degree: 1,
        list: &[
            1, 0, 0, 0, 1, 0, 0, 0, 1, 1, 0, 0, 0, 1, 0, 0, 0, 1, 1, 0, 0, 0, 1, 0, 0, 0, 1,
        ],
        column: &[0, 1, 0, 0, 1, 0],
        due: Ok(None),
    },
    FitCheck {
        what: "the unit matrix three times, the constant column",
        size: 3,
        degree: 0,
        list: &[
            1, 0, 0, 0, 1, 0, 0, 0, 1, 1, 0, 0, 0, 1, 0, 0, 0, 1, 1, 0, 0, 0, 1, 0, 0, 0, 1,
        ],
        column: &[0, 0, 1],
        due: Ok(Some((0, 3))),
    },
];

const WORDS: &[FitCheck<'static>] = &[FitCheck {
    what: "the unit matrix twice, the column turns the sign",
    size: 4,
    degree: 1,
    list: &[
        1, 0, 0, 0, 0, 1, 0, 0, 0, 0, 1, 0, 0, 0, 0, 1, 1, 0, 0, 0, 0, 1, 0, 0, 0, 0, 1, 0, 0, 0,
        0, 1,
    ],
    column: &[0, 0, 0, 1, 0, 0, 0, u32::MAX],
    due: Ok(None),
}];

const BITS: &[FitCheck<'static>] = &[FitCheck {
    what: "the unit matrix twice, the column stops",
    size: 4,
    degree: 1,
    list: &[
        1, 0, 0, 0, 0, 1, 0, 0, 0, 0, 1, 0, 0, 0, 0, 1, 1, 0, 0, 0, 0, 1, 0, 0, 0, 0, 1, 0, 0, 0,
        0, 1,
    ],
    column: &[0, 0, 0, 1, 0, 0, 0, 0],
    due: Ok(Some((1, 4))),
}];

// Recordings of two, three and four lanes.
pub fn fits_of_several_lanes(tally: &mut Tally<'_>) -> io::Result<()> {
    try_all(Mod101, tally, MODULO_101)?;
    try_all(Bytes, tally, BYTES)?;
    try_all(Words, tally, WORDS)?;
    try_all(Binary, tally, BITS)
}
