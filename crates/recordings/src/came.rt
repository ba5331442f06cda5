use crate::shown::{Listed, Refused, Stands};
use cases::holds;
use recurrences::Refusal;
use runs::standing::Standing;
use std::fmt;

// What a place holds that nothing was written into: no code of a field.
pub const UNWRITTEN: u32 = u32::MAX;

// What a call of a run came to, or what is due to it.
#[derive(Clone, Copy, PartialEq, Eq)]
pub enum Came<'a> {
    Done,
    Stands(Standing),
    // The codes written into a place. Those that are due are told up to the last that is not 0.
    Codes(&'a [u32]),
    Refused(Refusal),
}

pub fn is_unwritten(place: &[u32]) -> bool {
    place.iter().all(|code| *code == UNWRITTEN)
}

impl Came<'_> {
    pub fn is(self, due: Came<'_>) -> bool {
        match (self, due) {
            // Behind the codes due a place holds zeros.
            (Came::Codes(place), Came::Codes(codes)) => holds(place, codes, 0),
            _ => self == due,
        }
    }
}

impl fmt::Display for Came<'_> {
    fn fmt<W: fmt::Write>(&self, f: &mut fmt::Formatter<W>) -> fmt::Result {
        match *self {
            Came::Done => f.write_str("done"),
            Came::Stands(standing) => Stands(standing).fmt(f),
            Came::Codes(codes) => Listed(codes).fmt(f),
            Came::Refused(refusal) => Refused(refusal).fmt(f),
        }
    }
}
