use crate::operations::{Inverse, Operation};
use crate::trials::try_all;
use cases::Tally;
use rings::{Binary, Bytes, Mod101, Words};
use std::io;

// Over the field of two elements.
const BINARY: &[Operation] = &[
    Operation::Sum(0, 0, 0),
    Operation::Sum(0, 1, 1),
    Operation::Sum(0, 2, 0),
    Operation::Sum(0, u32::MAX, 0),
    Operation::Sum(1, 1, 0),
    Operation::Sum(1, 2, 1),
    Operation::Sum(1, u32::MAX, 1),
    Operation::Sum(2, 2, 0),
    Operation::Sum(2, u32::MAX, 0),
    Operation::Sum(u32::MAX, u32::MAX, 0),
    Operation::Opposite(0, 0),
    Operation::Opposite(1, 1),
    Operation::Opposite(2, 0),
    Operation::Opposite(u32::MAX, 0),
    Operation::Product(0, 0, 0),
    Operation::Product(0, 1, 0),
    Operation::Product(0, 2, 0),
    Operation::Product(0, u32::MAX, 0),
    Operation::Product(1, 1, 1),
    Operation::Product(1, 2, 0),
    Operation::Product(1, u32::MAX, 0),
    Operation::Product(2, 2, 0),
    Operation::Product(2, u32::MAX, 0),
    Operation::Product(u32::MAX, u32::MAX, 0),
];

const INVERSES_OF_BINARY: &[Inverse] = &[
    Inverse(0, None),
    Inverse(1, Some(1)),
    Inverse(2, None),
    Inverse(u32::MAX, None),
];

// Over the integers modulo 101.
const MOD101: &[Operation] = &[
    Operation::Sum(0, 0, 0),
    Operation::Sum(0, 1, 1),
    Operation::Sum(0, 100, 100),
    Operation::Sum(0, 101, 0),
    Operation::Sum(0, u32::MAX, 0),
    Operation::Sum(1, 1, 2),
    Operation::Sum(1, 100, 0),
    Operation::Sum(1, 101, 1),
    Operation::Sum(1, u32::MAX, 1),
    Operation::Sum(100, 100, 99),
    Operation::Sum(100, 101, 100),
    Operation::Sum(100, u32::MAX, 100),
    Operation::Sum(101, 101, 0),
    Operation::Sum(101, u32::MAX, 0),
    Operation::Sum(u32::MAX, u32::MAX, 0),
    Operation::Opposite(0, 0),
    Operation::Opposite(1, 100),
    Operation::Opposite(100, 1),
    Operation::Opposite(101, 0),
    Operation::Opposite(u32::MAX, 0),
    Operation::Product(0, 0, 0),
    Operation::Product(0, 1, 0),
    Operation::Product(0, 100, 0),
    Operation::Product(0, 101, 0),
    Operation::Product(0, u32::MAX, 0),
    Operation::Product(1, 1, 1),
    Operation::Product(1, 100, 100),
    Operation::Product(1, 101, 0),
    Operation::Product(1, u32::MAX, 0),
    Operation::Product(100, 100, 1),
    Operation::Product(100, 101, 0),
    Operation::Product(100, u32::MAX, 0),
    Operation::Product(101, 101, 0),
    Operation::Product(101, u32::MAX, 0),
    Operation::Product(u32::MAX, u32::MAX, 0),
];

const INVERSES_OF_MOD101: &[Inverse] = &[
    Inverse(0, None),
    Inverse(1, Some(1)),
    Inverse(100, Some(100)),
    Inverse(101, None),
    Inverse(u32::MAX, None),
];

// Over the byte field.
const BYTES: &[Operation] = &[
    Operation::Sum(0, 0, 0),
    Operation::Sum(0, 1, 1),
    Operation::Sum(0, 255, 255),
    Operation::Sum(0, 256, 0),
    Operation::Sum(0, u32::MAX, 0),
    Operation::Sum(1, 1, 0),
    Operation::Sum(1, 255, 254),
    Operation::Sum(1, 256, 1),
    Operation::Sum(1, u32::MAX, 1),
    Operation::Sum(255, 255, 0),
    Operation::Sum(255, 256, 255),
    Operation::Sum(255, u32::MAX, 255),
    Operation::Sum(256, 256, 0),
    Operation::Sum(256, u32::MAX, 0),
    Operation::Sum(u32::MAX, u32::MAX, 0),
    Operation::Opposite(0, 0),
    Operation::Opposite(1, 1),
    Operation::Opposite(255, 255),
    Operation::Opposite(256, 0),
    Operation::Opposite(u32::MAX, 0),
    Operation::Product(0, 0, 0),
    Operation::Product(0, 1, 0),
    Operation::Product(0, 255, 0),
    Operation::Product(0, 256, 0),
    Operation::Product(0, u32::MAX, 0),
    Operation::Product(1, 1, 1),
    Operation::Product(1, 255, 255),
    Operation::Product(1, 256, 0),
    Operation::Product(1, u32::MAX, 0),
    Operation::Product(255, 255, 19),
    Operation::Product(255, 256, 0),
    Operation::Product(255, u32::MAX, 0),
    Operation::Product(256, 256, 0),
    Operation::Product(256, u32::MAX, 0),
    Operation::Product(u32::MAX, u32::MAX, 0),
];

const INVERSES_OF_BYTES: &[Inverse] = &[
    Inverse(0, None),
    Inverse(1, Some(1)),
    Inverse(255, Some(28)),
    Inverse(256, None),
    Inverse(u32::MAX, None),
];

// Over the words that wrap.
const WORDS: &[Operation] = &[
    Operation::Sum(0, 0, 0),
    Operation::Sum(0, 1, 1),
    Operation::Sum(0, u32::MAX, u32::MAX),
    Operation::Sum(1, 1, 2),
    Operation::Sum(1, u32::MAX, 0),
    Operation::Sum(u32::MAX, u32::MAX, 4294967294),
    Operation::Opposite(0, 0),
    Operation::Opposite(1, u32::MAX),
    Operation::Opposite(u32::MAX, 1),
    Operation::Product(0, 0, 0),
    Operation::Product(0, 1, 0),
    Operation::Product(0, u32::MAX, 0),
    Operation::Product(1, 1, 1),
    Operation::Product(1, u32::MAX, u32::MAX),
    Operation::Product(u32::MAX, u32::MAX, 1),
];

// The edges of each ring: 0, 1, the greatest code, and numbers that are no codes.
pub fn edges(tally: &mut Tally<'_>) -> io::Result<()> {
    try_all(Binary, tally, BINARY)?;
    try_all(Binary, tally, INVERSES_OF_BINARY)?;
    try_all(Mod101, tally, MOD101)?;
    try_all(Mod101, tally, INVERSES_OF_MOD101)?;
    try_all(Bytes, tally, BYTES)?;
    try_all(Bytes, tally, INVERSES_OF_BYTES)?;
    try_all(Words, tally, WORDS)
}
