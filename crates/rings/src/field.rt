ghost use Rattle.std.specs.Prelude.{◌≡◌, ℕ, ◌<◌, Option};
ghost use Rattle.rings.specs.Meaning.{Inverse, code};

use crate::ring::Ring;

pub trait Field: Ring {
    ghost inverse: { Self → ℕ → Option ℕ };

    fn inverse(self, a: u32) -> Option<u32>
        ensures value { result ≡ inverse self (code Self.Ring.size a) }
        ensures law { Inverse Self.Ring.size (Self.Ring.means self) (code Self.Ring.size a) result };

    ghost inverts: { (s : Self) (a : ℕ) → a < Self.Ring.size → Inverse Self.Ring.size (Self.Ring.means s) a (inverse s a) };
}
