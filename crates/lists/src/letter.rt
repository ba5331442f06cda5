ghost use Rattle.std.specs.Prelude.{◌≡◌};
ghost use Rattle.lists.specs.Rings.{byte_of, size_of, letter_of};

use rings::{Binary, Bytes, Mod101, Ring, Words};

// The letter of a ring: bits, numbers modulo 101, bytes, words of 32 bits.
#[derive(Clone, Copy, PartialEq, Eq, Debug)]
pub enum RingLetter {
    B,
    P,
    Y,
    W,
}

impl RingLetter {
    pub fn byte(self) -> u8
        ensures { result ≡ byte_of self }
    {
        match self {
            RingLetter::B => b'B',
            RingLetter::P => b'P',
            RingLetter::Y => b'Y',
            RingLetter::W => b'W',
        }
    }

    // How many codes the ring has.
    pub fn size(self) -> u64
        ensures { result ≡ size_of self }
    {
        match self {
            RingLetter::B => Binary::size(),
            RingLetter::P => Mod101::size(),
            RingLetter::Y => Bytes::size(),
            RingLetter::W => Words::size(),
        }
    }
}

pub(crate) fn letter_of(field: &[u8]) -> Option<RingLetter>
    ensures { result ≡ letter_of field.now }
{
    match field {
        b"B" => Some(RingLetter::B),
        b"P" => Some(RingLetter::P),
        b"Y" => Some(RingLetter::Y),
        b"W" => Some(RingLetter::W),
        _ => None,
    }
}
