ghost use Rattle.std.specs.Prelude.{◌≡◌, ℕ, nat_lt};
ghost use Rattle.rings.specs.Meaning.{Meaning, Laws, code};

// A ring on the codes 0 to Q - 1. Every number is answered: one of Q or more is read as 0.
pub trait Ring: Copy {
    const Q: u64;

    ghost size: { ℕ };

    // The meaning hangs on the ring's value, so that a ring may be filled when the program runs.
    ghost means: { Self → Meaning };

    fn size() -> u64
        ensures { result ≡ size };

    fn sum(self, a: u32, b: u32) -> u32
        ensures { result ≡ (means self).sum (code size a) (code size b) };

    fn opposite(self, a: u32) -> u32
        ensures { result ≡ (means self).opposite (code size a) };

    fn product(self, a: u32, b: u32) -> u32
        ensures { result ≡ (means self).product (code size a) (code size b) };

    ghost lawful: { (s : Self) → Laws size (means s) };
}

pub fn is_code<R: Ring>(x: u32) -> bool
    ensures { result ≡ nat_lt x R.size }
{
    (x as u64) < R::size()
}
