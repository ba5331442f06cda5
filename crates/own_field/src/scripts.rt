use recurrences::{Phase, Refusal};
use runs::script::{Answer, Call};
use runs::standing::Standing;

// A run of size 2 that has taken nothing.
const FRESH: Standing = Standing {
    phase: Phase::Running,
    taken: 0,
    total: 0,
    greatest: 0,
    least: 1,
    generator_degrees: [0, 0, 0, 0],
    auxiliary_degrees: [1, 1, 0, 0],
};

// The run when it has taken all that the machine gives.
const SETTLED: Standing = Standing {
    phase: Phase::Settled,
    taken: 4,
    total: 3,
    greatest: 2,
    least: 3,
    generator_degrees: [2, 1, 0, 0],
    auxiliary_degrees: [3, 4, 0, 0],
};

// How many calls the script has.
pub const CALLS: usize = 22;

// A machine of three states, watched in two lanes: accepted and refused calls in turn, and what is due to each.
pub const SCRIPT: [(Call<'static>, Answer); CALLS] = [
    (Call::Standing, Answer::Stands(FRESH)),
    (
        Call::Continuation(1, 4),
        Answer::Refused(Refusal::NotSettled),
    ),
    (Call::Column(1, 2), Answer::Done),
    (Call::Column(3, 2), Answer::Refused(Refusal::ColumnNumber)),
    (Call::Offer(&[6, 5, 2]), Answer::Refused(Refusal::Length)),
    (Call::Offer(&[7, 5, 2, 3]), Answer::Refused(Refusal::Code)),
    (Call::Offer(&[6, 5, 2, 3]), Answer::Done),
    (Call::Column(1, 2), Answer::Refused(Refusal::Length)),
    (Call::Offer(&[4, 1, 0, 4]), Answer::Done),
    (Call::Offer(&[3, 5, 0, 0]), Answer::Done),
    (Call::Offer(&[0, 6, 1, 6]), Answer::Done),
    (Call::Standing, Answer::Stands(SETTLED)),
    (Call::Column(1, 6), Answer::Done),
    (Call::Column(2, 4), Answer::Done),
    (Call::Column(2, 1), Answer::Refused(Refusal::Length)),
    (Call::Continuation(3, 12), Answer::Done),
    (
        Call::Offer(&[6, 5, 2, 3]),
        Answer::Refused(Refusal::NotRunning),
    ),
    (Call::Continuation(0, 0), Answer::Refused(Refusal::Count)),
    (Call::Continuation(65, 260), Answer::Refused(Refusal::Count)),
    (Call::Continuation(1, 3), Answer::Refused(Refusal::Length)),
    (Call::Column(0, 0), Answer::Refused(Refusal::ColumnNumber)),
    (Call::Standing, Answer::Stands(SETTLED)),
];
