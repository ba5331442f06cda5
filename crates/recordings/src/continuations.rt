use crate::checks::Check;
use crate::long_runs::{
    FOUR_LANES_BYTES, FOUR_LANES_MOD101, THREE_LANES_BYTES, THREE_LANES_MOD101,
};
use crate::recorded_runs::{
    BEYOND_ITS_BOUND, CUT_AT_NONE, CUT_AT_TWO, POWERS_OF_THREE, POWERS_OF_TWO, SIX_SAMPLES,
    UNIT_TWICE, UNSTARTED,
};
use crate::recording::Continued;
use crate::run_limits::{LONGEST_OF_FOUR_LANES, LONGEST_OF_ONE_LANE, OFFERS};
use crate::telling_runs::{SETTLED_BY_ALL_DEGREES, TIE_OF_CANDIDATES, TIE_WITH_AUXILIARY};
use crate::trials::try_all;
use cases::Tally;
use recurrences::Refusal;
use rings::{Binary, Bytes, Mod101};
use std::io;

// Of the recordings worked by hand.
const WORKED_BITS: &[Continued<'static>] = &[
    Continued {
        what: "a run not yet started",
        recording: UNSTARTED,
        checks: &[
            Check::Continuation(1, 1, Ok(&[])),
            Check::Continuation(64, 64, Ok(&[])),
            Check::Continuation(0, 0, Err(Refusal::Count)),
            Check::Continuation(65, 65, Err(Refusal::Count)),
            Check::Continuation(1, 2, Err(Refusal::Length)),
        ],
    },
    Continued {
        what: "0,0,1,1,0,1 at bound 3",
        recording: SIX_SAMPLES,
        checks: &[
            Check::Continuation(2, 2, Ok(&[1])),
            Check::Continuation(7, 7, Ok(&[1, 0, 1, 1, 0, 1, 1])),
        ],
    },
    Continued {
        what: "the same at bound 2",
        recording: CUT_AT_TWO,
        checks: &[Check::Continuation(3, 3, Ok(&[]))],
    },
    Continued {
        what: "the same at bound 0",
        recording: CUT_AT_NONE,
        checks: &[Check::Continuation(1, 1, Ok(&[]))],
    },
    Continued {
        what: "a short run",
        recording: BEYOND_ITS_BOUND,
        checks: &[
            Check::Continuation(1, 4, Err(Refusal::NotSettled)),
            Check::Continuation(1, 3, Err(Refusal::NotSettled)),
            Check::Continuation(0, 0, Err(Refusal::NotSettled)),
            Check::Continuation(65, 260, Err(Refusal::NotSettled)),
        ],
    },
];

const WORKED_MODULO_101: &[Continued<'static>] = &[
    Continued {
        what: "the unit matrix twice",
        recording: UNIT_TWICE,
        checks: &[
            Check::Continuation(1, 4, Ok(&[1, 0, 0, 1])),
            Check::Continuation(3, 12, Ok(&[1, 0, 0, 1, 1, 0, 0, 1, 1, 0, 0, 1])),
        ],
    },
    Continued {
        what: "1,2",
        recording: POWERS_OF_TWO,
        checks: &[
            Check::Continuation(1, 1, Ok(&[4])),
            Check::Continuation(8, 8, Ok(&[4, 8, 16, 32, 64, 27, 54, 7])),
        ],
    },
];

const WORKED_BYTES: &[Continued<'static>] = &[Continued {
    what: "1,3",
    recording: POWERS_OF_THREE,
    checks: &[
        Check::Continuation(2, 2, Ok(&[5, 15])),
        Check::Continuation(8, 8, Ok(&[5, 15, 17, 51, 85, 255, 26, 46])),
    ],
}];

// Of the recordings that tell the rules apart.
const TELLING: &[Continued<'static>] = &[
    Continued {
        what: "a tie with the auxiliary column",
        recording: TIE_WITH_AUXILIARY,
        checks: &[Check::Continuation(2, 8, Ok(&[0, 0, 1, 1, 0, 0, 1, 1]))],
    },
    Continued {
        what: "a run that is running",
        recording: TIE_OF_CANDIDATES,
        checks: &[
            Check::Continuation(1, 4, Err(Refusal::NotSettled)),
            Check::Continuation(1, 3, Err(Refusal::NotSettled)),
            Check::Continuation(0, 0, Err(Refusal::NotSettled)),
            Check::Continuation(65, 260, Err(Refusal::NotSettled)),
        ],
    },
    Continued {
        what: "settled by all degrees",
        recording: SETTLED_BY_ALL_DEGREES,
        checks: &[Check::Continuation(2, 8, Ok(&[]))],
    },
];

// Of the recordings of three and four lanes.
const LONG_MODULO_101: &[Continued<'static>] = &[
    Continued {
        what: "three lanes",
        recording: THREE_LANES_MOD101,
        checks: &[Check::Continuation(
            2,
            18,
            Ok(&[
                95, 52, 87, 46, 93, 10, 91, 76, 68, 79, 7, 97, 42, 94, 61, 42, 63, 59,
            ]),
        )],
    },
    Continued {
        what: "four lanes",
        recording: FOUR_LANES_MOD101,
        checks: &[Check::Continuation(
            1,
            16,
            Ok(&[98, 23, 0, 44, 85, 25, 83, 0, 10, 92, 16, 77, 37, 7, 71, 84]),
        )],
    },
];

const LONG_BYTES: &[Continued<'static>] = &[
    Continued {
        what: "three lanes",
        recording: THREE_LANES_BYTES,
        checks: &[Check::Continuation(
            2,
            18,
            Ok(&[
                181, 1, 113, 143, 7, 182, 189, 56, 205, 221, 133, 2, 221, 171, 35, 239, 195, 124,
            ]),
        )],
    },
    Continued {
        what: "four lanes",
        recording: FOUR_LANES_BYTES,
        checks: &[Check::Continuation(
            1,
            16,
            Ok(&[41, 4, 0, 4, 50, 26, 0, 26, 31, 35, 0, 35, 45, 12, 0, 12]),
        )],
    },
];

// Both sides of the limits, the refusals in their order, and the longest lists.
const LIMITS: &[Continued<'static>] = &[Continued {
    what: "the matrix of 100 and 0",
    recording: OFFERS,
    checks: &[
        Check::Continuation(0, 0, Err(Refusal::Count)),
        Check::Continuation(0, 4, Err(Refusal::Count)),
        Check::Continuation(65, 260, Err(Refusal::Count)),
        Check::Continuation(65, 0, Err(Refusal::Count)),
        Check::Continuation(usize::MAX, usize::MAX, Err(Refusal::Count)),
        Check::Continuation(1, 0, Err(Refusal::Length)),
        Check::Continuation(1, 3, Err(Refusal::Length)),
        Check::Continuation(1, 5, Err(Refusal::Length)),
        Check::Continuation(1, usize::MAX, Err(Refusal::Length)),
        Check::Continuation(64, 255, Err(Refusal::Length)),
        Check::Continuation(64, 257, Err(Refusal::Length)),
        Check::Continuation(1, 4, Ok(&[94, 91, 86, 79])),
    ],
}];

const LONGEST_BITS: &[Continued<'static>] = &[Continued {
    what: "the longest of one lane",
    recording: LONGEST_OF_ONE_LANE,
    checks: &[
        Check::Continuation(1, 1, Ok(&[1])),
        Check::Continuation(63, 63, Ok(&[1; 63])),
        Check::Continuation(64, 64, Ok(&[1; 64])),
        Check::Continuation(65, 65, Err(Refusal::Count)),
    ],
}];

const LONGEST_MODULO_101: &[Continued<'static>] = &[Continued {
    what: "the longest of four lanes",
    recording: LONGEST_OF_FOUR_LANES,
    checks: &[
        Check::Continuation(1, 16, Ok(&[1, 1, 1, 1, 1, 1, 1, 1, 1, 1, 1, 1, 1, 1, 1, 1])),
        Check::Continuation(64, 1024, Ok(&[1; 1024])),
        Check::Continuation(64, 1023, Err(Refusal::Length)),
        Check::Continuation(64, 1025, Err(Refusal::Length)),
        Check::Continuation(65, 1040, Err(Refusal::Count)),
    ],
}];

// Further matrices behind recordings.
pub fn continuations(tally: &mut Tally<'_>) -> io::Result<()> {
    try_all(Binary, tally, WORKED_BITS)?;
    try_all(Mod101, tally, WORKED_MODULO_101)?;
    try_all(Bytes, tally, WORKED_BYTES)?;
    try_all(Binary, tally, TELLING)?;
    try_all(Mod101, tally, LONG_MODULO_101)?;
    try_all(Bytes, tally, LONG_BYTES)?;
    try_all(Mod101, tally, LIMITS)?;
    try_all(Binary, tally, LONGEST_BITS)?;
    try_all(Mod101, tally, LONGEST_MODULO_101)
}
