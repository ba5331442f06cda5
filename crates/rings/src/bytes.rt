ghost use Rattle.std.specs.Prelude.{◌≡◌, ◌<◌};
ghost use Rattle.rings.specs.Bytes.{byte_product, bytes};
ghost use Rattle.rings.specs.Meaning.{Inverse};
ghost use Rattle.rings.specs.PowersOfThree.{powers_of_three, byte_inverse};
ghost use Rattle.rings.specs.ByteLaws.{byte_laws, byte_inverts};

use crate::field::Field;
use crate::numbers::below;
use crate::powers::{Powers, inverse_by_places, product_by_places};
use crate::powers_of_three::{place_among_powers, power_of_three};
use crate::ring::Ring;

// The byte field of FIPS 197.
#[derive(Clone, Copy)]
pub struct Bytes;

impl Powers for Bytes {
    ghost powers = { λ _. powers_of_three };

    fn power_at(self, i: usize) -> u8 {
        power_of_three(i)
    }

    fn place_of(self, a: usize) -> u8 {
        place_among_powers(a)
    }
}

fn product_of(a: u32, b: u32) -> u32
    requires a_bound { a < 256 }
    requires b_bound { b < 256 }
    ensures { result ≡ byte_product a b }
{
    product_by_places(Bytes, a, b)
}

fn inverse_of(a: u32) -> Option<u32>
    requires { a < 256 }
    ensures value { result ≡ byte_inverse a }
    ensures law { Inverse 256 bytes a result }
{
    inverse_by_places(Bytes, a)
}

impl Ring for Bytes {
    const Q: u64 = 256;

    ghost size = { 256 };

    ghost means = { λ _. bytes };

    ghost lawful = { λ s. byte_laws };

    fn size() -> u64 {
        Self::Q
    }

    fn sum(self, a: u32, b: u32) -> u32 {
        below(a, 256) ^ below(b, 256)
    }

    fn opposite(self, a: u32) -> u32 {
        below(a, 256)
    }

    fn product(self, a: u32, b: u32) -> u32 {
        product_of(below(a, 256), below(b, 256))
    }
}

impl Field for Bytes {
    ghost inverse = { λ _ a. byte_inverse a };

    ghost inverts = { λ s a h. byte_inverts a h };

    fn inverse(self, a: u32) -> Option<u32> {
        inverse_of(below(a, 256))
    }
}
