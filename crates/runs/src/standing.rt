use recurrences::{GREATEST_SIZE, Phase};

// Where a run stands. The degrees of the columns stand first in their lists, and 0 behind them.
#[derive(Clone, Copy, PartialEq, Eq, Debug)]
pub struct Standing {
    pub phase: Phase,
    // How many matrices it has taken.
    pub taken: usize,
    // The sum of the generator degrees.
    pub total: usize,
    // The greatest of them.
    pub greatest: usize,
    // The least of the auxiliary degrees.
    pub least: usize,
    pub generator_degrees: [usize; GREATEST_SIZE],
    pub auxiliary_degrees: [usize; GREATEST_SIZE],
}
