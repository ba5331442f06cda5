use crate::checks::Check;
use crate::recording::Recording;
use crate::trials::try_all;
use cases::Tally;
use recurrences::{Phase, Refusal};
use rings::{Bytes, Mod101};
use std::io;

// A machine of five states, watched in three lanes until it settles.
pub const THREE_LANES_MOD101: &[Check<'static>] = &[
    Check::Start(3, 5, Ok(())),
    Check::Standing(Phase::Running, [0, 0, 0, 1], [0, 0, 0, 0], [1, 1, 1, 0]),
    Check::Offer(&[49, 55, 26, 92, 57, 73, 12, 31, 11], Ok(())),
    Check::Standing(Phase::Running, [1, 3, 1, 1], [1, 1, 1, 0], [1, 1, 1, 0]),
    Check::Offer(&[89, 3, 38, 74, 70, 99, 66, 44, 2], Ok(())),
    Check::Standing(Phase::Running, [2, 3, 1, 2], [1, 1, 1, 0], [2, 2, 2, 0]),
    Check::Offer(&[83, 73, 60, 1, 22, 0, 99, 64, 24], Ok(())),
    Check::Standing(Phase::Running, [3, 5, 2, 2], [2, 2, 1, 0], [2, 2, 3, 0]),
    Check::Offer(&[7, 46, 91, 22, 3, 53, 71, 16, 62], Ok(())),
    Check::Standing(Phase::Settled, [4, 5, 2, 3], [2, 2, 1, 0], [3, 3, 4, 0]),
    Check::Column(1, 9, Ok(&[89, 42, 0, 83, 64, 3, 51, 86, 69])),
    Check::Column(2, 9, Ok(&[55, 1, 0, 73, 8, 48, 81, 73, 21])),
    Check::Column(3, 6, Ok(&[69, 2, 1, 50, 50, 71])),
    Check::Offer(
        &[49, 55, 26, 92, 57, 73, 12, 31, 11],
        Err(Refusal::NotRunning),
    ),
];

// A machine of six states, watched in four lanes until it settles.
pub const FOUR_LANES_MOD101: &[Check<'static>] = &[
    Check::Start(4, 6, Ok(())),
    Check::Standing(Phase::Running, [0, 0, 0, 1], [0, 0, 0, 0], [1, 1, 1, 1]),
    Check::Offer(
        &[
            20, 25, 67, 33, 26, 31, 1, 17, 20, 70, 17, 61, 28, 59, 94, 39,
        ],
        Ok(()),
    ),
    Check::Standing(Phase::Running, [1, 4, 1, 1], [1, 1, 1, 1], [1, 1, 1, 1]),
    Check::Offer(
        &[96, 51, 67, 14, 53, 29, 87, 13, 44, 1, 43, 76, 0, 51, 74, 49],
        Ok(()),
    ),
    Check::Standing(Phase::Running, [2, 4, 1, 2], [1, 1, 1, 1], [2, 2, 2, 2]),
    Check::Offer(
        &[
            35, 25, 39, 78, 69, 61, 34, 68, 23, 11, 12, 78, 42, 35, 19, 39,
        ],
        Ok(()),
    ),
    Check::Standing(Phase::Running, [3, 6, 2, 2], [2, 2, 1, 1], [2, 2, 3, 3]),
    Check::Offer(
        &[
            80, 7, 99, 80, 99, 78, 71, 13, 33, 64, 98, 27, 74, 43, 39, 53,
        ],
        Ok(()),
    ),
    Check::Standing(Phase::Settled, [4, 6, 2, 3], [2, 2, 1, 1], [3, 3, 4, 4]),
    Check::Column(1, 12, Ok(&[68, 35, 0, 0, 10, 46, 5, 8, 56, 37, 11, 40])),
    Check::Column(2, 12, Ok(&[25, 1, 0, 0, 85, 43, 72, 25, 79, 33, 33, 2])),
    Check::Column(3, 8, Ok(&[56, 37, 1, 0, 53, 3, 49, 48])),
    Check::Column(4, 8, Ok(&[82, 5, 95, 1, 13, 15, 62, 6])),
    Check::Offer(
        &[
            20, 25, 67, 33, 26, 31, 1, 17, 20, 70, 17, 61, 28, 59, 94, 39,
        ],
        Err(Refusal::NotRunning),
    ),
];

// A machine of five states, watched in three lanes until it settles.
pub const THREE_LANES_BYTES: &[Check<'static>] = &[
    Check::Start(3, 5, Ok(())),
    Check::Standing(Phase::Running, [0, 0, 0, 1], [0, 0, 0, 0], [1, 1, 1, 0]),
    Check::Offer(&[163, 142, 42, 163, 16, 111, 47, 16, 105], Ok(())),
    Check::Standing(Phase::Running, [1, 3, 1, 1], [1, 1, 1, 0], [1, 1, 1, 0]),
    Check::Offer(&[175, 242, 245, 97, 165, 127, 54, 28, 63], Ok(())),
    Check::Standing(Phase::Running, [2, 3, 1, 2], [1, 1, 1, 0], [2, 2, 2, 0]),
    Check::Offer(&[11, 189, 109, 125, 109, 85, 192, 187, 245], Ok(())),
    Check::Standing(Phase::Running, [3, 5, 2, 2], [2, 2, 1, 0], [2, 2, 3, 0]),
    Check::Offer(&[108, 121, 147, 156, 62, 26, 216, 205, 162], Ok(())),
    Check::Standing(Phase::Settled, [4, 5, 2, 3], [2, 2, 1, 0], [3, 3, 4, 0]),
    Check::Column(1, 9, Ok(&[25, 189, 0, 94, 11, 11, 141, 154, 69])),
    Check::Column(2, 9, Ok(&[162, 1, 0, 189, 229, 192, 82, 82, 171])),
    Check::Column(3, 6, Ok(&[48, 101, 1, 181, 1, 140])),
    Check::Offer(
        &[163, 142, 42, 163, 16, 111, 47, 16, 105],
        Err(Refusal::NotRunning),
    ),
];

// A machine of six states, watched in four lanes until it settles.
pub const FOUR_LANES_BYTES: &[Check<'static>] = &[
    Check::Start(4, 6, Ok(())),
    Check::Standing(Phase::Running, [0, 0, 0, 1], [0, 0, 0, 0], [1, 1, 1, 1]),
    Check::Offer(
        &[60, 10, 37, 4, 45, 43, 51, 26, 18, 25, 9, 35, 53, 2, 53, 12],
        Ok(()),
    ),
    Check::Standing(Phase::Running, [1, 4, 1, 1], [1, 1, 1, 1], [1, 1, 1, 1]),
    Check::Offer(
        &[50, 34, 0, 45, 28, 49, 0, 40, 40, 21, 0, 60, 59, 43, 0, 33],
        Ok(()),
    ),
    Check::Standing(Phase::Running, [2, 4, 1, 2], [1, 1, 1, 1], [2, 2, 2, 2]),
    Check::Offer(
        &[61, 16, 0, 4, 5, 45, 0, 26, 1, 61, 0, 35, 49, 16, 0, 12],
        Ok(()),
    ),
    Check::Standing(Phase::Running, [3, 6, 2, 2], [1, 2, 1, 2], [2, 2, 3, 3]),
    Check::Offer(
        &[41, 45, 0, 45, 50, 40, 0, 40, 31, 60, 0, 60, 45, 33, 0, 33],
        Ok(()),
    ),
    Check::Standing(Phase::Settled, [4, 6, 2, 3], [1, 2, 1, 2], [3, 3, 4, 4]),
    Check::Column(1, 8, Ok(&[1, 0, 0, 0, 1, 1, 0, 1])),
    Check::Column(
        2,
        12,
        Ok(&[170, 16, 71, 106, 248, 186, 195, 170, 66, 66, 0, 40]),
    ),
    Check::Column(3, 8, Ok(&[210, 0, 1, 0, 210, 210, 0, 210])),
    Check::Column(
        4,
        12,
        Ok(&[225, 66, 187, 1, 120, 163, 43, 225, 219, 219, 0, 218]),
    ),
    Check::Offer(
        &[60, 10, 37, 4, 45, 43, 51, 26, 18, 25, 9, 35, 53, 2, 53, 12],
        Err(Refusal::NotRunning),
    ),
];

// Recordings of three and four lanes.
pub fn long_runs(tally: &mut Tally<'_>) -> io::Result<()> {
    try_all(
        Mod101,
        tally,
        &[Recording(THREE_LANES_MOD101), Recording(FOUR_LANES_MOD101)],
    )?;
    try_all(
        Bytes,
        tally,
        &[Recording(THREE_LANES_BYTES), Recording(FOUR_LANES_BYTES)],
    )
}
