ghost use Rattle.std.specs.Prelude.{◌≡◌, Ok, Err};
ghost use Rattle.runs.specs.declared.script.Answer.TheVariants.{Done, Refused};

use crate::standing::Standing;
use recurrences::Refusal;

// A call of a run, with its arguments. A place is told by its length.
#[derive(Clone, Copy, PartialEq, Eq, Debug)]
pub enum Call<'a> {
    // The matrix, row by row.
    Offer(&'a [u32]),
    Standing,
    // The number of the column, and the length of the place.
    Column(usize, usize),
    // How many matrices, and the length of the place.
    Continuation(usize, usize),
}

// What a call answered.
#[derive(Clone, Copy, PartialEq, Eq, Debug)]
pub enum Answer {
    Done,
    Stands(Standing),
    Refused(Refusal),
}

impl From<Result<(), Refusal>> for Answer {
    ghost from_gives = { λ r a. elim r [ Ok _ ↦ a ≡ Done | Err e ↦ a ≡ Refused e ] };

    fn from(r: Result<(), Refusal>) -> Answer {
        match r {
            Ok(()) => Answer::Done,
            Err(refusal) => Answer::Refused(refusal),
        }
    }
}
