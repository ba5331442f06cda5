ghost use Rattle.std.specs.Prelude.{◌≡◌};
ghost use Rattle.rings.specs.Meaning.{code};

// How an operation on q codes reads a number.
pub fn below(x: u32, q: u32) -> u32
    ensures { result ≡ code q x }
{
    if x < q { x } else { 0 }
}
