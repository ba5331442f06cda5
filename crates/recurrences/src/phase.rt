ghost use Rattle.std.specs.Prelude.{◌≡◌, Some};
ghost use Rattle.recurrences.specs.Phases.{phase, phase_word};

use std::fmt;

// Where a run stands towards its bound.
#[derive(Clone, Copy, PartialEq, Eq, Debug)]
pub enum Phase {
    // Every generator of the matrices taken totals more than the bound.
    Short,
    // More matrices are wanted.
    Running,
    // No further matrix changes the columns, unless it takes every generator beyond the bound.
    Settled,
}

impl fmt::Display for Phase {
    ghost output = { λ p. Some (phase_word p) };

    fn fmt<W: fmt::Write>(&self, f: &mut fmt::Formatter<W>) -> fmt::Result {
        f.write_str(match self {
            Self::Short => "short",
            Self::Running => "running",
            Self::Settled => "settled",
        })
    }
}

// The phase from the total sigma and the greatest mu of the generator degrees, and the least beta of the auxiliary degrees.
pub fn phase_of(bound: usize, sigma: usize, mu: usize, beta: usize) -> Phase
    ensures { result ≡ phase bound sigma mu beta }
{
    if sigma > bound {
        Phase::Short
    } else if beta as u128 + sigma as u128 > bound as u128 + mu as u128 {
        Phase::Settled
    } else {
        Phase::Running
    }
}
