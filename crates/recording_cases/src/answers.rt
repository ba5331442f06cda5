use cases::{Says, Values, put};
use recurrences::{Phase, Refusal};
use runs::standing::Standing;

// What a call answered.
#[derive(Clone, Copy, PartialEq, Eq, Debug)]
pub enum Answer {
    Number(u32),
    Absent,
    Fits,
    // The place and the row at which a column first fails.
    Fails(usize, usize),
    Done,
    Stands(Standing),
    // So many codes, which stand at the front of what came.
    Codes(usize),
    Refused(Refusal),
    // A call that should leave the run as it was did not. If it was refused, then with this.
    ChangedRun(Option<Refusal>),
}

impl From<Result<(), Refusal>> for Answer {
    fn from(answer: Result<(), Refusal>) -> Answer {
        match answer {
            Ok(()) => Answer::Done,
            Err(refusal) => Answer::Refused(refusal),
        }
    }
}

impl From<Result<Option<(usize, usize)>, Refusal>> for Answer {
    fn from(answer: Result<Option<(usize, usize)>, Refusal>) -> Answer {
        match answer {
            Ok(None) => Answer::Fits,
            Ok(Some((place, row))) => Answer::Fails(place, row),
            Err(refusal) => Answer::Refused(refusal),
        }
    }
}

fn words_of(phase: Phase) -> &'static str {
    match phase {
        Phase::Short =>
            "short taken # total # greatest # least # generators # # # # auxiliaries # # # #",
        Phase::Running =>
            "running taken # total # greatest # least # generators # # # # auxiliaries # # # #",
        Phase::Settled =>
            "settled taken # total # greatest # least # generators # # # # auxiliaries # # # #",
    }
}

fn put_standing(standing: &Standing, values: &mut Values) {
    let Standing {
        taken,
        total,
        greatest,
        least,
        generator_degrees,
        auxiliary_degrees,
        ..
    } = *standing;
    put(&mut values.numbers, &[taken, total, greatest, least]);
    put(&mut values.numbers[4..], &generator_degrees);
    put(&mut values.numbers[8..], &auxiliary_degrees);
}

impl Says for Answer {
    fn words(&self) -> &'static str {
        match self {
            Self::Number(_) => "#",
            Self::Absent => "absent",
            Self::Fits => "fits",
            Self::Fails(..) => "place # row #",
            Self::Done => "done",
            Self::Stands(standing) => words_of(standing.phase),
            Self::Codes(_) => "[]",
            Self::Refused(_) => "refused #",
            Self::ChangedRun(_) => "changed the run",
        }
    }

    fn put(&self, values: &mut Values) {
        match self {
            Self::Number(number) => values.numbers[0] = *number as usize,
            Self::Fails(place, row) => {
                values.numbers[0] = *place;
                values.numbers[1] = *row;
            }
            Self::Stands(standing) => put_standing(standing, values),
            Self::Codes(length) => values.numbers[0] = *length,
            Self::Refused(refusal) | Self::ChangedRun(Some(refusal)) => {
                values.numbers[0] = refusal.number() as usize;
            }
            Self::Absent | Self::Fits | Self::Done | Self::ChangedRun(None) => {}
        }
    }
}
