ghost use Rattle.std.specs.Prelude.{◌≡◌};
ghost use Rattle.runs.specs.Reach.{reach_of};

use recurrences::{GREATEST_BOUND, GREATEST_SIZE};

// A run at the greatest bound, 64, takes at most 2 × 64 = 128 matrices.
pub const GREATEST_COUNT: usize = 2 * GREATEST_BOUND;

// After n matrices a degree is at most n + 1, so that a column has at most 128 + 2 = 130 coefficients.
pub const COEFFICIENTS: usize = GREATEST_COUNT + 2;

#[derive(Clone, Copy)]
pub struct Vector {
    pub entries: [u32; GREATEST_SIZE],
}

impl Vector {
    pub const ZERO: Vector = Vector {
        entries: [0; GREATEST_SIZE],
    };
}

// A column with its degree. The coefficients stand from the constant one on.
#[derive(Clone, Copy)]
pub struct Column {
    pub degree: usize,
    pub coefficients: [Vector; COEFFICIENTS],
}

#[derive(Clone, Copy)]
pub struct Matrix {
    pub rows: [Vector; GREATEST_SIZE],
}

// Generator columns and auxiliary columns.
#[derive(Clone, Copy)]
pub struct Columns {
    pub gens: [Column; GREATEST_SIZE],
    pub auxs: [Column; GREATEST_SIZE],
}

// What a run holds: the size of its matrices, how many it has taken, these, and its columns.
#[derive(Clone, Copy)]
pub struct State {
    pub size: usize,
    pub count: usize,
    pub matrices: [Matrix; GREATEST_COUNT],
    pub columns: Columns,
}

// How many coefficients a column of a degree has, at most those that the table holds.
pub fn reach(degree: usize) -> usize
    ensures { result ≡ reach_of degree }
{
    degree.min(COEFFICIENTS - 1) + 1
}
