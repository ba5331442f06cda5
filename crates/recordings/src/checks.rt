use crate::came::{Came, UNWRITTEN, is_unwritten};
use crate::lettered::Lettered;
use crate::shown::Listed;
use crate::trials::Trials;
use recurrences::{Phase, Refusal};
use rings::{Field, Ring};
use runs::run::Run;
use runs::standing::Standing;
use std::{fmt, io};

// The length of the longest place that is lent.
const LONG: usize = 1025;

// A call of a run, what it is given, and what is due.
#[derive(Clone, Copy)]
pub enum Check<'a> {
    // A size and a bound.
    Start(usize, usize, Result<(), Refusal>),
    Offer(&'a [u32], Result<(), Refusal>),
    // The same matrix so many times.
    Offers(usize, &'a [u32]),
    // The phase; how many were taken, the total, the greatest and the least; the generator degrees; the auxiliary degrees.
    Standing(Phase, [usize; 4], [usize; 4], [usize; 4]),
    // The number of the column, the length of the place, and the codes up to the last that is not 0.
    Column(usize, usize, Result<&'a [u32], Refusal>),
    // How many further matrices, the length of the place, and the codes up to the last that is not 0.
    Continuation(usize, usize, Result<&'a [u32], Refusal>),
}

impl<'a> Check<'a> {
    fn due(self) -> Came<'a> {
        match self {
            Check::Start(_, _, Ok(())) | Check::Offer(_, Ok(())) | Check::Offers(..) => Came::Done,
            Check::Standing(phase, numbers, generator_degrees, auxiliary_degrees) => {
                let [taken, total, greatest, least] = numbers;
                Came::Stands(Standing {
                    phase,
                    taken,
                    total,
                    greatest,
                    least,
                    generator_degrees,
                    auxiliary_degrees,
                })
            }
            Check::Column(_, _, Ok(codes)) | Check::Continuation(_, _, Ok(codes)) => {
                Came::Codes(codes)
            }
            Check::Start(_, _, Err(refusal))
            | Check::Offer(_, Err(refusal))
            | Check::Column(_, _, Err(refusal))
            | Check::Continuation(_, _, Err(refusal)) => Came::Refused(refusal),
        }
    }

    // How long a place the call is lent.
    fn length(self) -> usize {
        match self {
            Check::Column(_, length, _) | Check::Continuation(_, length, _) => length,
            _ => 0,
        }
    }

    // Makes the call.
    pub fn call<F: Field>(
        self,
        field: F,
        run: &mut Run<F>,
        place: &mut [u32],
    ) -> Result<(), Refusal> {
        match self {
            Check::Start(size, bound, _) => run.start(field, size, bound),
            Check::Offer(matrix, _) => run.offer(matrix),
            Check::Offers(times, matrix) => {
                for _ in 0..times {
                    run.offer(matrix)?;
                }
                Ok(())
            }
            Check::Standing(..) => Ok(()),
            Check::Column(number, _, _) => run.column(number, place),
            Check::Continuation(count, _, _) => run.continuation(count, place),
        }
    }

    // What the call came to, from its answer, the place that was lent to it and where the run stands.
    fn came<'p>(
        self,
        answer: Result<(), Refusal>,
        place: &'p [u32],
        standing: Standing,
    ) -> Came<'p> {
        match (answer, self) {
            (Err(refusal), _) => Came::Refused(refusal),
            (Ok(()), Check::Standing(..)) => Came::Stands(standing),
            (Ok(()), Check::Column(..) | Check::Continuation(..)) => Came::Codes(place),
            (Ok(()), _) => Came::Done,
        }
    }

    // Makes the call, and tells what came. Unless it is done, the run stands where it stood; a refused one leaves the
    // place too.
    pub fn carry_out<F: Lettered + Field>(
        self,
        trials: &mut Trials<'_, '_, F>,
        run: &mut Run<F>,
        opening: impl fmt::Display + Drop,
    ) -> io::Result<()> {
        let mut places = [UNWRITTEN; LONG];
        let place = &mut places[0..self.length().min(LONG)];
        let before = run.standing();
        let answer = self.call(trials.ring(), run, place);
        let after = run.standing();
        let came = self.came(answer, place, after);
        let kept = match came {
            Came::Done => true,
            Came::Refused(_) => before == after && is_unwritten(place),
            _ => before == after,
        };
        trials.tell(
            format_args!("{opening}{self}{came}"),
            kept && came.is(self.due()),
        )
    }
}

// The call, up to what it comes to.
impl fmt::Display for Check<'_> {
    fn fmt<W: fmt::Write>(&self, f: &mut fmt::Formatter<W>) -> fmt::Result {
        match *self {
            Check::Start(size, bound, _) => write!(f, "start with size {size} and bound {bound}: "),
            Check::Offer(matrix, _) => {
                let matrix = Listed(matrix);
                write!(f, "offer {matrix}: ")
            }
            Check::Offers(times, matrix) => {
                let matrix = Listed(matrix);
                write!(f, "offer {times} times {matrix}: ")
            }
            Check::Standing(..) => Ok(()),
            Check::Column(number, length, _) => write!(f, "column {number} into {length}: "),
            Check::Continuation(count, length, _) => {
                write!(f, "continuation of {count} into {length}: ")
            }
        }
    }
}
