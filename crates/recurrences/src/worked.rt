ghost use Rattle.std.specs.Prelude.{◌≡◌, Some, None, Ok};
ghost use Rattle.recurrences.specs.WorkedRecordings.{WorkedRecordings};

use crate::fits::fits;
use crate::refusal::Refusal;
use rings::Words;

fn compute_recordings()
    ensures { WorkedRecordings }
{}

// What the definitions give for worked recordings.
pub fn worked_recordings()
    ensures { WorkedRecordings }
{
    compute_recordings();
}

pub fn fitting_words() -> Result<Option<(usize, usize)>, Refusal>
    ensures { result ≡ Ok None }
{
    worked_recordings();
    fits(Words, 1, 1, &[1, 2147483648, 0], &[1, 2147483648])
}

pub fn failing_words() -> Result<Option<(usize, usize)>, Refusal>
    ensures { result ≡ Ok (Some (1, 1)) }
{
    worked_recordings();
    fits(Words, 1, 1, &[1, 2], &[1, 4294967293])
}
