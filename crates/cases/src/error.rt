ghost use Rattle.std.specs.Prelude.{◌≡◌, Some};
ghost use Rattle.cases.specs.Reasons.{reason};
ghost use Rattle.cases.specs.declared.error.CallError.TheVariants.{NotUnderstood, OutOfMemory};

use std::alloc::{AllocError, AllocFailed};
use std::error::Error;
use std::fmt;
use std::num::{ParseIntError, TryFromIntError};

// Why a case has no answer.
#[derive(Clone, Copy, PartialEq, Eq, Debug)]
pub enum CallError {
    NotUnderstood,
    OutOfMemory,
    // A call wrote into its place where it had nothing to write.
    WrittenElsewhere,
}

impl fmt::Display for CallError {
    ghost output = { λ e. Some (reason e) };

    fn fmt<W: fmt::Write>(&self, f: &mut fmt::Formatter<W>) -> fmt::Result {
        f.write_str(match self {
            Self::NotUnderstood => "not understood",
            Self::OutOfMemory => "out of memory",
            Self::WrittenElsewhere => "written elsewhere",
        })
    }
}

impl Error for CallError {}

impl From<ParseIntError> for CallError {
    ghost from_gives = { λ _ e. e ≡ NotUnderstood };

    fn from(_: ParseIntError) -> CallError {
        CallError::NotUnderstood
    }
}

impl From<TryFromIntError> for CallError {
    ghost from_gives = { λ _ e. e ≡ NotUnderstood };

    fn from(_: TryFromIntError) -> CallError {
        CallError::NotUnderstood
    }
}

impl From<AllocError> for CallError {
    ghost from_gives = { λ _ e. e ≡ OutOfMemory };

    fn from(_: AllocError) -> CallError {
        CallError::OutOfMemory
    }
}

impl<T: Drop> From<AllocFailed<T>> for CallError {
    ghost from_gives = { λ _ e. e ≡ OutOfMemory };

    fn from(_: AllocFailed<T>) -> CallError {
        CallError::OutOfMemory
    }
}
