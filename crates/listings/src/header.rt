use lists::{Header, RingLetter};

// What a first line says, with any numbers: a list may be refused for them.
#[derive(Clone, Copy, PartialEq, Eq, Debug)]
pub struct Said {
    pub letter: RingLetter,
    pub size: u32,
    pub bound: u32,
}

pub fn header(letter: RingLetter, size: u32, bound: u32) -> Said {
    Said {
        letter,
        size,
        bound,
    }
}

impl From<Header> for Said {
    fn from(header: Header) -> Said {
        Said {
            letter: header.letter,
            size: header.size.rows() as u32,
            bound: header.bound.degree() as u32,
        }
    }
}
