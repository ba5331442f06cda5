use crate::operations::{Inverse, Operation};
use crate::trials::try_all;
use cases::Tally;
use rings::Bytes;
use std::io;

// The examples of FIPS 197: {57} + {83} = {d4}, {57} x {83} = {c1}, {57} x {13} = {fe}, and {57} times
// {02}, {04}, {08} and {10}; each is {02} times the one before.
const EXAMPLES: &[Operation] = &[
    Operation::Sum(0x57, 0x83, 0xd4),
    Operation::Product(0x57, 0x83, 0xc1),
    Operation::Product(0x57, 0x13, 0xfe),
    Operation::Product(0x57, 0x02, 0xae),
    Operation::Product(0x57, 0x04, 0x47),
    Operation::Product(0x57, 0x08, 0x8e),
    Operation::Product(0x57, 0x10, 0x07),
    Operation::Product(0xae, 0x02, 0x47),
    Operation::Product(0x47, 0x02, 0x8e),
    Operation::Product(0x8e, 0x02, 0x07),
    Operation::Product(0x53, 0xca, 0x01),
];

const INVERSES: &[Inverse] = &[
    Inverse(0x53, Some(0xca)),
    Inverse(0xca, Some(0x53)),
    Inverse(0x02, Some(0x8d)),
    Inverse(0x03, Some(0xf6)),
];

pub fn published(tally: &mut Tally<'_>) -> io::Result<()> {
    try_all(Bytes, tally, EXAMPLES)?;
    try_all(Bytes, tally, INVERSES)
}
