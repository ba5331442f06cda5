ghost use Rattle.std.specs.Prelude.{◌≡◌, ◌≤◌};
ghost use Rattle.recurrences.specs.Ranges.{checked_bound};

use crate::limits::GREATEST_BOUND;
use crate::refusal::Refusal;
use std::marker::Model;

// How much the degrees of a generator may total, or how great the degree of a column may be. Contracts see it as that number.
#[derive(Clone, Copy, PartialEq, Eq, Debug)]
pub struct Bound {
    degree: usize,
}

impl Model for Bound {
    ghost use Rattle.std.specs.Prelude.{ℕ, ◌≤◌};
    ghost use Rattle.recurrences.specs.Limits.{greatest_bound};

    ghost Value = { ℕ };

    ghost view = { λ b. b.degree };

    ghost invariant = { λ b. b.degree ≤ greatest_bound };

    ghost inverse = { λ n. record { degree = n } };
}

impl TryFrom<usize> for Bound {
    type Error = Refusal;

    fn try_from(degree: usize) -> Result<Bound, Refusal>
        ensures { result ≡ checked_bound degree }
    {
        if degree <= GREATEST_BOUND {
            Ok(Bound { degree })
        } else {
            Err(Refusal::Bound)
        }
    }
}

impl Bound {
    pub const ZERO: Bound = Bound { degree: 0 };

    pub fn degree(self) -> usize
        ensures degree { result ≡ self }
        ensures small { result ≤ 64 }
    {
        self.degree
    }
}
