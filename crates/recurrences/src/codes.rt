ghost use Rattle.std.specs.Prelude.{◌≡◌};
ghost use Rattle.recurrences.specs.Codes.{all_codes};

use rings::{Ring, is_code};

// Whether each number is a code of a ring of that size.
pub fn are_below(size: u64, numbers: &[u32]) -> bool
    ensures { result ≡ all_codes size numbers.now }
{
    numbers.iter().all(|x| (*x as u64) < size)
}

pub fn are_codes<R: Ring>(numbers: &[u32]) -> bool
    ensures { result ≡ all_codes R.size numbers.now }
{
    numbers.iter().all(|x| is_code::<R>(*x))
}
