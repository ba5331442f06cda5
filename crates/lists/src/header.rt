ghost use Rattle.std.specs.Prelude.{◌≡◌, [], ◌∷◌};

use crate::letter::RingLetter;
use recurrences::{Bound, Size};

// What the first line of a file says.
#[derive(Clone, Copy, PartialEq, Eq, Debug)]
pub struct Header {
    pub letter: RingLetter,
    pub size: Size,
    pub bound: Bound,
}

// What a file says of its list.
#[derive(Clone, Copy, PartialEq, Eq, Debug)]
pub struct Listing {
    pub header: Header,
    // How many matrices the list has.
    pub count: u32,
}

impl Header {
    // The numbers of the line.
    pub(crate) fn numbers(&self) -> [u32; 2]
        ensures { result ≡ self.now.size ∷ self.now.bound ∷ [] }
    {
        [self.size.rows() as u32, self.bound.degree() as u32]
    }
}
