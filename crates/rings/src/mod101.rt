ghost use Rattle.rings.specs.Mod101.{mod101_inverse};
ghost use Rattle.rings.specs.Modular.{modular};
ghost use Rattle.std.proofs.Common.{lit≤};
ghost use Rattle.rings.specs.ModularLaws.{modular_laws};
ghost use Rattle.rings.specs.InverseTable.{mod101_inverts};

use crate::field::Field;
use crate::mod101_inverses::inverse_at;
use crate::numbers::below;
use crate::ring::Ring;

// The integers modulo 101.
#[derive(Clone, Copy)]
pub struct Mod101;

impl Ring for Mod101 {
    const Q: u64 = 101;

    ghost size = { 101 };

    ghost means = { λ _. modular 101 };

    ghost lawful = { λ s. modular_laws 101 (lit≤ tt) (lit≤ tt) };

    fn size() -> u64 {
        Self::Q
    }

    fn sum(self, a: u32, b: u32) -> u32 {
        (below(a, 101) + below(b, 101)) % 101
    }

    fn opposite(self, a: u32) -> u32 {
        (101 - below(a, 101)) % 101
    }

    fn product(self, a: u32, b: u32) -> u32 {
        below(a, 101) * below(b, 101) % 101
    }
}

impl Field for Mod101 {
    ghost inverse = { λ _ a. mod101_inverse a };

    ghost inverts = { λ s a h. mod101_inverts a h };

    fn inverse(self, a: u32) -> Option<u32> {
        match below(a, 101) {
            0 => None,
            a => Some(inverse_at(a as usize) as u32),
        }
    }
}
