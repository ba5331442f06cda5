use crate::checks::Check;
use crate::recording::Recording;
use crate::trials::try_all;
use cases::Tally;
use recurrences::{Phase, Refusal};
use rings::Binary;
use std::io;

// A candidate and the auxiliary column of the row have the same degree: the auxiliary column is the pivot.
pub const TIE_WITH_AUXILIARY: &[Check<'static>] = &[
    Check::Start(2, 2, Ok(())),
    Check::Standing(Phase::Running, [0, 0, 0, 1], [0, 0, 0, 0], [1, 1, 0, 0]),
    Check::Offer(&[0, 1, 1, 0], Ok(())),
    Check::Standing(Phase::Running, [1, 2, 1, 1], [1, 1, 0, 0], [1, 1, 0, 0]),
    Check::Offer(&[0, 0, 1, 1], Ok(())),
    Check::Standing(Phase::Settled, [2, 2, 1, 2], [1, 1, 0, 0], [2, 2, 0, 0]),
    Check::Column(1, 4, Ok(&[1, 0, 1])),
    Check::Column(2, 4, Ok(&[0, 1, 1])),
    Check::Offer(&[0, 0, 0, 0], Err(Refusal::NotRunning)),
];

// Two candidates have the same degree: the lower number is the pivot.
pub const TIE_OF_CANDIDATES: &[Check<'static>] = &[
    Check::Start(2, 1, Ok(())),
    Check::Standing(Phase::Running, [0, 0, 0, 1], [0, 0, 0, 0], [1, 1, 0, 0]),
    Check::Offer(&[0, 0, 1, 1], Ok(())),
    Check::Standing(Phase::Running, [1, 1, 1, 1], [1, 0, 0, 0], [2, 1, 0, 0]),
    Check::Column(1, 4, Ok(&[1])),
    Check::Column(2, 2, Ok(&[1, 1])),
];

// A column that became an auxiliary one in the first row is closed in the second.
pub const CLOSED_COLUMN: &[Check<'static>] = &[
    Check::Start(2, 1, Ok(())),
    Check::Standing(Phase::Running, [0, 0, 0, 1], [0, 0, 0, 0], [1, 1, 0, 0]),
    Check::Offer(&[0, 1, 0, 1], Ok(())),
    Check::Standing(Phase::Running, [1, 1, 1, 1], [0, 1, 0, 0], [1, 2, 0, 0]),
    Check::Column(1, 2, Ok(&[1])),
    Check::Column(2, 4, Ok(&[0, 1])),
];

// A run of two lanes settles by all its degrees: the test for one lane, n of at least twice the bound, would want more.
pub const SETTLED_BY_ALL_DEGREES: &[Check<'static>] = &[
    Check::Start(2, 2, Ok(())),
    Check::Standing(Phase::Running, [0, 0, 0, 1], [0, 0, 0, 0], [1, 1, 0, 0]),
    Check::Offer(&[0, 1, 1, 0], Ok(())),
    Check::Standing(Phase::Running, [1, 2, 1, 1], [1, 1, 0, 0], [1, 1, 0, 0]),
    Check::Offer(&[0, 0, 0, 0], Ok(())),
    Check::Standing(Phase::Settled, [2, 2, 1, 2], [1, 1, 0, 0], [2, 2, 0, 0]),
    Check::Column(1, 4, Ok(&[1])),
    Check::Column(2, 4, Ok(&[0, 1])),
    Check::Offer(&[0, 0, 0, 0], Err(Refusal::NotRunning)),
];

// Recordings that a program with another rule for pivots, columns or phases takes otherwise.
pub fn telling_runs(tally: &mut Tally<'_>) -> io::Result<()> {
    try_all(
        Binary,
        tally,
        &[
            Recording(TIE_WITH_AUXILIARY),
            Recording(TIE_OF_CANDIDATES),
            Recording(CLOSED_COLUMN),
            Recording(SETTLED_BY_ALL_DEGREES),
        ],
    )
}
