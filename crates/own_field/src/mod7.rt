ghost use Rattle.std.specs.Prelude.{◌≡◌, ◌*◌, ◌%◌, ◌^◌, ◌<◌};
ghost use Rattle.rings.specs.Modular.{modular};
ghost use Rattle.own_field.specs.Mod7.{mod7_inverse};
ghost use Rattle.std.proofs.Common.{lit≤};
ghost use Rattle.rings.specs.ModularLaws.{modular_laws};
ghost use Rattle.own_field.specs.Inverses.{mod7_inverts};

use rings::{Field, Ring, below};

// The integers modulo 7.
#[derive(Clone, Copy)]
pub struct Mod7;

// This field stands outside the crate of the others to show what one of your own needs: its table and laws are its own, though the field
// modulo 101 has the like.

// At each code the code whose product with it leaves the remainder 1 on division by 7, and 0 at 0.
const INVERSES: [u8; 7] = [0, 1, 4, 5, 2, 3, 6];

fn inverse_at(a: usize) -> u8
    requires { a < 7 }
    ensures entry { result ≡ a ^ 5 % 7 }
    ensures rule { 0 < a → a * result % 7 ≡ 1 }
{
    INVERSES[a]
}

impl Ring for Mod7 {
    const Q: u64 = 7;

    ghost size = { 7 };

    ghost means = { λ _. modular 7 };

    ghost lawful = { λ s. modular_laws 7 (lit≤ tt) (lit≤ tt) };

    fn size() -> u64 {
        Self::Q
    }

    fn sum(self, a: u32, b: u32) -> u32 {
        (below(a, 7) + below(b, 7)) % 7
    }

    fn opposite(self, a: u32) -> u32 {
        (7 - below(a, 7)) % 7
    }

    fn product(self, a: u32, b: u32) -> u32 {
        below(a, 7) * below(b, 7) % 7
    }
}

impl Field for Mod7 {
    ghost inverse = { λ _ a. mod7_inverse a };

    ghost inverts = { λ s a h. mod7_inverts a h };

    fn inverse(self, a: u32) -> Option<u32> {
        match below(a, 7) {
            0 => None,
            a => Some(inverse_at(a as usize) as u32),
        }
    }
}
