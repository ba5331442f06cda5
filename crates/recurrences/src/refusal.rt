ghost use Rattle.std.specs.Prelude.{◌≡◌, Some};
ghost use Rattle.recurrences.specs.Numbering.{number, reason};

use std::error::Error;
use std::fmt;

// Why a call is refused.
#[derive(Clone, Copy, PartialEq, Eq, Debug)]
pub enum Refusal {
    // The size of the matrices is not 1 to 4.
    Size = 1,
    // The bound, or the degree of a column, is above 64.
    Bound = 2,
    // The run is not running.
    NotRunning = 3,
    // A list or a place has not the length due.
    Length = 4,
    // An entry is not a code.
    Code = 5,
    // The run is short.
    IsShort = 6,
    // There is no generator column of that number.
    ColumnNumber = 7,
    // The run is not settled.
    NotSettled = 8,
    // The number of matrices wanted is not 1 to 64.
    Count = 9,
}

impl Refusal {
    pub fn number(self) -> u32
        ensures { result ≡ number self }
    {
        self as u32
    }
}

impl fmt::Display for Refusal {
    ghost output = { λ e. Some (reason e) };

    fn fmt<W: fmt::Write>(&self, f: &mut fmt::Formatter<W>) -> fmt::Result {
        f.write_str(match self {
            Self::Size => "the size is not 1 to 4",
            Self::Bound => "the bound is above 64",
            Self::NotRunning => "the run is not running",
            Self::Length => "a list or a place has not the length due",
            Self::Code => "an entry is not a code",
            Self::IsShort => "the run is short",
            Self::ColumnNumber => "there is no generator column of that number",
            Self::NotSettled => "the run is not settled",
            Self::Count => "the number of matrices wanted is not 1 to 64",
        })
    }
}

impl Error for Refusal {}
