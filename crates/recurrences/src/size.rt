ghost use Rattle.std.specs.Prelude.{◌≡◌, ◌*◌, ◌≤◌};
ghost use Rattle.recurrences.specs.Ranges.{checked_size};

use crate::limits::GREATEST_SIZE;
use crate::refusal::Refusal;
use std::marker::Model;

// How many rows a matrix has, and how many columns. Contracts see it as that number.
#[derive(Clone, Copy, PartialEq, Eq, Debug)]
pub struct Size {
    rows: usize,
}

impl Model for Size {
    ghost use Rattle.std.specs.Prelude.{ℕ, ◌≤◌};
    ghost use Rattle.recurrences.specs.Limits.{greatest_size};

    ghost Value = { ℕ };

    ghost view = { λ s. s.rows };

    ghost invariant = { λ s. (1 ≤ s.rows) × (s.rows ≤ greatest_size) };

    ghost inverse = { λ n. record { rows = n } };
}

impl TryFrom<usize> for Size {
    type Error = Refusal;

    fn try_from(rows: usize) -> Result<Size, Refusal>
        ensures { result ≡ checked_size rows }
    {
        if 1 <= rows && rows <= GREATEST_SIZE {
            Ok(Size { rows })
        } else {
            Err(Refusal::Size)
        }
    }
}

impl Size {
    pub const ONE: Size = Size { rows: 1 };

    pub fn rows(self) -> usize
        ensures rows { result ≡ self }
        ensures some { 1 ≤ result }
        ensures small { result ≤ 4 }
    {
        self.rows
    }

    // How many entries a matrix has.
    pub fn cells(self) -> usize
        ensures product { result ≡ self * self }
        ensures some { 1 ≤ result }
        ensures few { result ≤ 16 }
    {
        let rows = self.rows;
        rows * rows
    }
}
