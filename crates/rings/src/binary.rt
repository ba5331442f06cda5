ghost use Rattle.rings.specs.Binary.{binary, binary_inverse};
ghost use Rattle.rings.specs.BinaryLaws.{binary_laws, binary_inverts};

use crate::field::Field;
use crate::numbers::below;
use crate::ring::Ring;

// The field of two elements.
#[derive(Clone, Copy)]
pub struct Binary;

impl Ring for Binary {
    const Q: u64 = 2;

    ghost size = { 2 };

    ghost means = { λ _. binary };

    ghost lawful = { λ s. binary_laws };

    fn size() -> u64 {
        Self::Q
    }

    fn sum(self, a: u32, b: u32) -> u32 {
        below(a, 2) ^ below(b, 2)
    }

    fn opposite(self, a: u32) -> u32 {
        below(a, 2)
    }

    fn product(self, a: u32, b: u32) -> u32 {
        below(a, 2) & below(b, 2)
    }
}

impl Field for Binary {
    ghost inverse = { λ _ a. binary_inverse a };

    ghost inverts = { λ s a h. binary_inverts a h };

    fn inverse(self, a: u32) -> Option<u32> {
        match below(a, 2) {
            0 => None,
            _ => Some(1),
        }
    }
}
