ghost use Rattle.std.specs.Prelude.{◌^◌};
ghost use Rattle.rings.specs.Modular.{modular};
ghost use Rattle.std.proofs.Common.{lit≤};
ghost use Rattle.rings.specs.ModularLaws.{modular_laws};

use crate::ring::Ring;

// Words of 32 bits, whose sums and products wrap. It is a ring only: an even word has no inverse.
#[derive(Clone, Copy)]
pub struct Words;

impl Ring for Words {
    const Q: u64 = 0x1_0000_0000;

    ghost size = { 2 ^ 32 };

    ghost means = { λ _. modular (2 ^ 32) };

    ghost lawful = { λ s. modular_laws (2 ^ 32) (lit≤ tt) (lit≤ tt) };

    fn size() -> u64 {
        Self::Q
    }

    fn sum(self, a: u32, b: u32) -> u32 {
        a.wrapping_add(b)
    }

    fn opposite(self, a: u32) -> u32 {
        a.wrapping_neg()
    }

    fn product(self, a: u32, b: u32) -> u32 {
        a.wrapping_mul(b)
    }
}
