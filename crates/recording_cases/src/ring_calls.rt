use crate::answers::Answer;
use cases::CallError;
use cases::Part::{self, Word};
use recurrences::fits::fits;
use rings::Ring;

pub fn code(part: &Part<'_>) -> Result<u32, CallError> {
    Ok(u32::try_from(part.number()?)?)
}

// A call on a ring.
pub fn ring_call<R: Ring>(ring: R, call: &[Part<'_>]) -> Result<Answer, CallError> {
    match call {
        [Word("sum"), _, a, b] => Ok(Answer::Number(ring.sum(code(a)?, code(b)?))),
        [Word("product"), _, a, b] => Ok(Answer::Number(ring.product(code(a)?, code(b)?))),
        [Word("opposite"), _, a] => Ok(Answer::Number(ring.opposite(code(a)?))),
        [
            Word("fits"),
            _,
            Word("size"),
            size,
            Word("degree"),
            degree,
            Word("list"),
            list,
            Word("column"),
            column,
        ] => {
            let (list, column) = (list.codes()?, column.codes()?);
            Ok(fits(ring, size.number()?, degree.number()?, list, column).into())
        }
        _ => Err(CallError::NotUnderstood),
    }
}
