use crate::checks::Check;
use crate::recording::Recording;
use crate::trials::try_all;
use cases::Tally;
use recurrences::{Phase, Refusal};
use rings::{Binary, Bytes, Mod101};
use std::io;

// A run that is not yet started, and takes nothing.
pub const UNSTARTED: &[Check<'static>] = &[
    Check::Standing(Phase::Settled, [0, 0, 0, 1], [0, 0, 0, 0], [1, 0, 0, 0]),
    Check::Offer(&[0], Err(Refusal::NotRunning)),
    Check::Column(1, 1, Ok(&[1])),
    Check::Column(1, 2, Err(Refusal::Length)),
];

// 0,0,1,1,0,1 at bound 3 settles just at the sixth.
pub const SIX_SAMPLES: &[Check<'static>] = &[
    Check::Start(1, 3, Ok(())),
    Check::Standing(Phase::Running, [0, 0, 0, 1], [0, 0, 0, 0], [1, 0, 0, 0]),
    Check::Offer(&[0], Ok(())),
    Check::Standing(Phase::Running, [1, 0, 0, 2], [0, 0, 0, 0], [2, 0, 0, 0]),
    Check::Offer(&[0], Ok(())),
    Check::Standing(Phase::Running, [2, 0, 0, 3], [0, 0, 0, 0], [3, 0, 0, 0]),
    Check::Offer(&[1], Ok(())),
    Check::Standing(Phase::Running, [3, 3, 3, 1], [3, 0, 0, 0], [1, 0, 0, 0]),
    Check::Offer(&[1], Ok(())),
    Check::Standing(Phase::Running, [4, 3, 3, 2], [3, 0, 0, 0], [2, 0, 0, 0]),
    Check::Offer(&[0], Ok(())),
    Check::Standing(Phase::Running, [5, 3, 3, 3], [3, 0, 0, 0], [3, 0, 0, 0]),
    Check::Offer(&[1], Ok(())),
    Check::Standing(Phase::Settled, [6, 3, 3, 4], [3, 0, 0, 0], [4, 0, 0, 0]),
    Check::Column(1, 4, Ok(&[1, 1, 1])),
    Check::Offer(&[0], Err(Refusal::NotRunning)),
];

// The same at bound 2 settles before the first 1.
pub const CUT_AT_TWO: &[Check<'static>] = &[
    Check::Start(1, 2, Ok(())),
    Check::Standing(Phase::Running, [0, 0, 0, 1], [0, 0, 0, 0], [1, 0, 0, 0]),
    Check::Offer(&[0], Ok(())),
    Check::Standing(Phase::Running, [1, 0, 0, 2], [0, 0, 0, 0], [2, 0, 0, 0]),
    Check::Offer(&[0], Ok(())),
    Check::Standing(Phase::Settled, [2, 0, 0, 3], [0, 0, 0, 0], [3, 0, 0, 0]),
    Check::Column(1, 1, Ok(&[1])),
    Check::Offer(&[1], Err(Refusal::NotRunning)),
];

// The same at bound 0 is settled at its start.
pub const CUT_AT_NONE: &[Check<'static>] = &[
    Check::Start(1, 0, Ok(())),
    Check::Standing(Phase::Settled, [0, 0, 0, 1], [0, 0, 0, 0], [1, 0, 0, 0]),
    Check::Column(1, 1, Ok(&[1])),
    Check::Offer(&[0], Err(Refusal::NotRunning)),
];

// The unit matrix wants two columns of degree 1.
pub const BEYOND_ITS_BOUND: &[Check<'static>] = &[
    Check::Start(2, 1, Ok(())),
    Check::Standing(Phase::Running, [0, 0, 0, 1], [0, 0, 0, 0], [1, 1, 0, 0]),
    Check::Offer(&[1, 0, 0, 1], Ok(())),
    Check::Standing(Phase::Short, [1, 2, 1, 1], [1, 1, 0, 0], [1, 1, 0, 0]),
    Check::Column(1, 2, Err(Refusal::IsShort)),
    Check::Offer(&[0, 0, 0, 0], Err(Refusal::NotRunning)),
];

// The unit matrix twice: each sample repeats the one before.
pub const UNIT_TWICE: &[Check<'static>] = &[
    Check::Start(2, 2, Ok(())),
    Check::Standing(Phase::Running, [0, 0, 0, 1], [0, 0, 0, 0], [1, 1, 0, 0]),
    Check::Offer(&[1, 0, 0, 1], Ok(())),
    Check::Standing(Phase::Running, [1, 2, 1, 1], [1, 1, 0, 0], [1, 1, 0, 0]),
    Check::Offer(&[1, 0, 0, 1], Ok(())),
    Check::Standing(Phase::Settled, [2, 2, 1, 2], [1, 1, 0, 0], [2, 2, 0, 0]),
    Check::Column(1, 4, Ok(&[1, 0, 100])),
    Check::Column(2, 4, Ok(&[0, 1, 0, 100])),
    Check::Offer(&[1, 0, 0, 1], Err(Refusal::NotRunning)),
];

// Each sample is twice the one before.
pub const POWERS_OF_TWO: &[Check<'static>] = &[
    Check::Start(1, 1, Ok(())),
    Check::Standing(Phase::Running, [0, 0, 0, 1], [0, 0, 0, 0], [1, 0, 0, 0]),
    Check::Offer(&[1], Ok(())),
    Check::Standing(Phase::Running, [1, 1, 1, 1], [1, 0, 0, 0], [1, 0, 0, 0]),
    Check::Offer(&[2], Ok(())),
    Check::Standing(Phase::Settled, [2, 1, 1, 2], [1, 0, 0, 0], [2, 0, 0, 0]),
    Check::Column(1, 2, Ok(&[1, 99])),
    Check::Offer(&[4], Err(Refusal::NotRunning)),
];

// Each sample is three times the one before.
pub const POWERS_OF_THREE: &[Check<'static>] = &[
    Check::Start(1, 1, Ok(())),
    Check::Standing(Phase::Running, [0, 0, 0, 1], [0, 0, 0, 0], [1, 0, 0, 0]),
    Check::Offer(&[1], Ok(())),
    Check::Standing(Phase::Running, [1, 1, 1, 1], [1, 0, 0, 0], [1, 0, 0, 0]),
    Check::Offer(&[3], Ok(())),
    Check::Standing(Phase::Settled, [2, 1, 1, 2], [1, 0, 0, 0], [2, 0, 0, 0]),
    Check::Column(1, 2, Ok(&[1, 3])),
    Check::Offer(&[5], Err(Refusal::NotRunning)),
];

// Recordings worked by hand.
pub fn recorded_runs(tally: &mut Tally<'_>) -> io::Result<()> {
    try_all(
        Binary,
        tally,
        &[
            Recording(UNSTARTED),
            Recording(SIX_SAMPLES),
            Recording(CUT_AT_TWO),
            Recording(CUT_AT_NONE),
            Recording(BEYOND_ITS_BOUND),
        ],
    )?;
    try_all(
        Mod101,
        tally,
        &[Recording(UNIT_TWICE), Recording(POWERS_OF_TWO)],
    )?;
    try_all(Bytes, tally, &[Recording(POWERS_OF_THREE)])
}
