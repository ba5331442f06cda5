ghost use Rattle.std.specs.Prelude.{◌≤◌, IfOk};

use crate::answers::Answer;
use crate::ring_calls::{code, ring_call};
use crate::shown::look_at;
use cases::Part::{self, Word};
use cases::{CODES, CallError, Values};
use recurrences::Refusal;
use rings::{Field, Ring};
use runs::run::Run;

// Offers the same matrix so often, up to the first refusal.
fn offer<F: Field>(run: &mut Run<F>, times: usize, matrix: &[u32]) -> Result<(), Refusal> {
    for _ in 0..times {
        run.offer(matrix)?;
    }
    Ok(())
}

// How long a place is to be, as a part says, if a case can hold what is written there.
fn room(part: &Part<'_>) -> Result<usize, CallError>
    ensures { IfOk result (λ n. n ≤ 16400) }
{
    match part.number()? {
        length if length <= CODES => Ok(length),
        _ => Err(CallError::NotUnderstood),
    }
}

// What a call answered that had a place to write to.
fn placed(answer: Result<(), Refusal>, length: usize) -> Answer {
    match answer {
        Ok(()) => Answer::Codes(length),
        Err(refusal) => Answer::Refused(refusal),
    }
}

fn call_on<F: Field>(
    field: F,
    run: &mut Run<F>,
    call: &[Part<'_>],
    came: &mut Values,
) -> Result<Answer, CallError> {
    match call {
        [Word("run"), _] => {
            *run = Run::new(field);
            Ok(Answer::Done)
        }
        [Word("start"), _, Word("size"), size, Word("bound"), bound] => {
            Ok(run.start(field, size.number()?, bound.number()?).into())
        }
        [Word("offer"), _, matrix] => Ok(run.offer(matrix.codes()?).into()),
        [Word("offer"), _, times, Word("times"), matrix] => match times.number()? {
            0 => Err(CallError::NotUnderstood),
            times => Ok(offer(run, times, matrix.codes()?).into()),
        },
        [Word("standing"), _] => Ok(Answer::Stands(run.standing())),
        [Word("column"), _, number, Word("place"), length] => {
            let length = room(length)?;
            let answer = run.column(number.number()?, &mut came.codes[..length]);
            Ok(placed(answer, length))
        }
        [Word("continuation"), _, count, Word("place"), length] => {
            let length = room(length)?;
            let answer = run.continuation(count.number()?, &mut came.codes[..length]);
            Ok(placed(answer, length))
        }
        [Word("inverse"), _, a] => Ok(match field.inverse(code(a)?) {
            Some(b) => Answer::Number(b),
            None => Answer::Absent,
        }),
        _ => ring_call(field, call),
    }
}

// A call on a field, or on the run over it. Unless it is done, the run should stay as it was.
pub fn field_call<F: Field>(
    field: F,
    run: &mut Run<F>,
    call: &[Part<'_>],
    came: &mut Values,
) -> Result<Answer, CallError> {
    let before = look_at(run);
    let answer = call_on(field, run, call, came)?;
    if answer == Answer::Done || before == look_at(run) {
        return Ok(answer);
    }
    Ok(Answer::ChangedRun(match answer {
        Answer::Refused(refusal) => Some(refusal),
        _ => None,
    }))
}
