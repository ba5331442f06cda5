ghost use Rattle.std.specs.Prelude.{◌≡◌};
ghost use Rattle.rings.specs.Bytes.{bytes};

use crate::bytes::Bytes;
use crate::ring::Ring;

// What the definition of the byte field computes at 87 and 131.
fn as_published(product: u32) -> u32
    requires { product ≡ bytes.product 87 131 }
    ensures same { result ≡ product }
    ensures published { result ≡ 193 }
{
    product
}

// The product that FIPS 197 works out: hexadecimal 57 times 83 is C1.
pub fn published_product() -> u32
    ensures meaning { result ≡ bytes.product 87 131 }
    ensures published { result ≡ 193 }
{
    as_published(Bytes.product(87, 131))
}
