use crate::checks::Check;
use crate::recording::Recording;
use crate::trials::try_all;
use cases::Tally;
use recurrences::{Phase, Refusal};
use rings::{Binary, Mod101};
use std::io;

// The size and the bound on both sides of their limits. A start that is refused changes nothing.
pub const STARTS: &[Check<'static>] = &[
    Check::Start(0, 0, Err(Refusal::Size)),
    Check::Start(5, 0, Err(Refusal::Size)),
    Check::Start(usize::MAX, 0, Err(Refusal::Size)),
    Check::Start(5, 65, Err(Refusal::Size)),
    Check::Start(4, 65, Err(Refusal::Bound)),
    Check::Start(4, usize::MAX, Err(Refusal::Bound)),
    Check::Standing(Phase::Settled, [0, 0, 0, 1], [0, 0, 0, 0], [1, 0, 0, 0]),
    Check::Start(4, 64, Ok(())),
    Check::Standing(Phase::Running, [0, 0, 0, 1], [0, 0, 0, 0], [1, 1, 1, 1]),
    Check::Start(0, 64, Err(Refusal::Size)),
    Check::Start(1, 65, Err(Refusal::Bound)),
    Check::Standing(Phase::Running, [0, 0, 0, 1], [0, 0, 0, 0], [1, 1, 1, 1]),
    Check::Start(1, 64, Ok(())),
    Check::Standing(Phase::Running, [0, 0, 0, 1], [0, 0, 0, 0], [1, 0, 0, 0]),
];

// The length is asked before the codes, and the phase before both. A matrix that is refused changes nothing.
pub const OFFERS: &[Check<'static>] = &[
    Check::Start(2, 2, Ok(())),
    Check::Offer(&[], Err(Refusal::Length)),
    Check::Offer(&[1, 0, 0], Err(Refusal::Length)),
    Check::Offer(&[1, 0, 0, 1, 0], Err(Refusal::Length)),
    Check::Offer(&[101, 0, 0], Err(Refusal::Length)),
    Check::Offer(&[101, 0, 0, 1], Err(Refusal::Code)),
    Check::Offer(&[1, 0, 0, u32::MAX], Err(Refusal::Code)),
    Check::Standing(Phase::Running, [0, 0, 0, 1], [0, 0, 0, 0], [1, 1, 0, 0]),
    Check::Offer(&[100, 0, 0, 100], Ok(())),
    Check::Standing(Phase::Running, [1, 2, 1, 1], [1, 1, 0, 0], [1, 1, 0, 0]),
    Check::Offer(&[1, 2, 3, 4], Ok(())),
    Check::Standing(Phase::Settled, [2, 2, 1, 2], [1, 1, 0, 0], [2, 2, 0, 0]),
    Check::Offer(&[1, 0, 0], Err(Refusal::NotRunning)),
    Check::Offer(&[101, 0, 0, 0], Err(Refusal::NotRunning)),
    Check::Standing(Phase::Settled, [2, 2, 1, 2], [1, 1, 0, 0], [2, 2, 0, 0]),
];

// A short run takes nothing and shows no column, whatever it is asked.
pub const CALLS_OF_A_SHORT_RUN: &[Check<'static>] = &[
    Check::Start(2, 1, Ok(())),
    Check::Offer(&[1, 0, 0, 1], Ok(())),
    Check::Standing(Phase::Short, [1, 2, 1, 1], [1, 1, 0, 0], [1, 1, 0, 0]),
    Check::Offer(&[1, 0], Err(Refusal::NotRunning)),
    Check::Offer(&[2, 0, 0, 0], Err(Refusal::NotRunning)),
    Check::Offer(&[0, 0, 0, 0], Err(Refusal::NotRunning)),
    Check::Standing(Phase::Short, [1, 2, 1, 1], [1, 1, 0, 0], [1, 1, 0, 0]),
    Check::Column(1, 2, Err(Refusal::IsShort)),
    Check::Column(0, 2, Err(Refusal::IsShort)),
    Check::Column(3, 0, Err(Refusal::IsShort)),
    Check::Column(usize::MAX, usize::MAX, Err(Refusal::IsShort)),
    Check::Standing(Phase::Short, [1, 2, 1, 1], [1, 1, 0, 0], [1, 1, 0, 0]),
];

// The number of a column is asked before the length of its place. A place that is refused holds what it held.
pub const COLUMNS: &[Check<'static>] = &[
    Check::Start(2, 3, Ok(())),
    Check::Column(1, 2, Ok(&[1])),
    Check::Column(2, 1, Err(Refusal::Length)),
    Check::Column(2, 3, Err(Refusal::Length)),
    Check::Column(3, 2, Err(Refusal::ColumnNumber)),
    Check::Column(0, 2, Err(Refusal::ColumnNumber)),
    Check::Offer(&[0, 1, 0, 1], Ok(())),
    Check::Standing(Phase::Running, [1, 1, 1, 1], [0, 1, 0, 0], [1, 2, 0, 0]),
    Check::Column(1, 2, Ok(&[1])),
    Check::Column(2, 4, Ok(&[0, 1])),
    Check::Column(1, 4, Err(Refusal::Length)),
    Check::Column(2, 2, Err(Refusal::Length)),
    Check::Column(2, 3, Err(Refusal::Length)),
    Check::Column(2, 5, Err(Refusal::Length)),
    Check::Column(2, 0, Err(Refusal::Length)),
    Check::Column(2, usize::MAX, Err(Refusal::Length)),
    Check::Column(0, 4, Err(Refusal::ColumnNumber)),
    Check::Column(3, 4, Err(Refusal::ColumnNumber)),
    Check::Column(3, 5, Err(Refusal::ColumnNumber)),
    Check::Column(usize::MAX, 0, Err(Refusal::ColumnNumber)),
    Check::Standing(Phase::Running, [1, 1, 1, 1], [0, 1, 0, 0], [1, 2, 0, 0]),
];

// The most matrices that a run takes, 128: the first 1 stands just within the bound.
pub const LONGEST_OF_ONE_LANE: &[Check<'static>] = &[
    Check::Start(1, 64, Ok(())),
    Check::Offers(63, &[0]),
    Check::Standing(Phase::Running, [63, 0, 0, 64], [0, 0, 0, 0], [64, 0, 0, 0]),
    Check::Offers(65, &[1]),
    Check::Standing(
        Phase::Settled,
        [128, 64, 64, 65],
        [64, 0, 0, 0],
        [65, 0, 0, 0],
    ),
    Check::Offer(&[1], Err(Refusal::NotRunning)),
    Check::Column(1, 65, Ok(&[1, 1])),
    Check::Column(1, 64, Err(Refusal::Length)),
    Check::Column(1, 66, Err(Refusal::Length)),
];

// The same in four lanes, with a column of 260 codes.
pub const LONGEST_OF_FOUR_LANES: &[Check<'static>] = &[
    Check::Start(4, 64, Ok(())),
    Check::Offers(63, &[0, 0, 0, 0, 0, 0, 0, 0, 0, 0, 0, 0, 0, 0, 0, 0]),
    Check::Standing(
        Phase::Running,
        [63, 0, 0, 64],
        [0, 0, 0, 0],
        [64, 64, 64, 64],
    ),
    Check::Offers(65, &[1, 1, 1, 1, 1, 1, 1, 1, 1, 1, 1, 1, 1, 1, 1, 1]),
    Check::Standing(
        Phase::Settled,
        [128, 64, 64, 65],
        [64, 0, 0, 0],
        [65, 129, 129, 129],
    ),
    Check::Offer(
        &[1, 1, 1, 1, 1, 1, 1, 1, 1, 1, 1, 1, 1, 1, 1, 1],
        Err(Refusal::NotRunning),
    ),
    Check::Column(1, 260, Ok(&[1, 0, 0, 0, 100])),
    Check::Column(2, 4, Ok(&[100, 1])),
    Check::Column(3, 4, Ok(&[100, 0, 1])),
    Check::Column(4, 4, Ok(&[100, 0, 0, 1])),
    Check::Column(1, 259, Err(Refusal::Length)),
    Check::Column(1, 261, Err(Refusal::Length)),
    Check::Column(5, 4, Err(Refusal::ColumnNumber)),
];

// One place later the run is settled before the first 1.
pub const FIRST_BEYOND_THE_BOUND: &[Check<'static>] = &[
    Check::Start(1, 64, Ok(())),
    Check::Offers(64, &[0]),
    Check::Standing(Phase::Settled, [64, 0, 0, 65], [0, 0, 0, 0], [65, 0, 0, 0]),
    Check::Offer(&[1], Err(Refusal::NotRunning)),
];

// Both sides of every limit, and every refusal.
pub fn run_limits(tally: &mut Tally<'_>) -> io::Result<()> {
    try_all(Mod101, tally, &[Recording(STARTS), Recording(OFFERS)])?;
    try_all(Binary, tally, &[Recording(CALLS_OF_A_SHORT_RUN)])?;
    try_all(Mod101, tally, &[Recording(COLUMNS)])?;
    try_all(Binary, tally, &[Recording(LONGEST_OF_ONE_LANE)])?;
    try_all(Mod101, tally, &[Recording(LONGEST_OF_FOUR_LANES)])?;
    try_all(Binary, tally, &[Recording(FIRST_BEYOND_THE_BOUND)])
}
