ghost use Rattle.std.specs.Prelude.{◌≡◌, ◌+◌, ◌-◌, ◌*◌, ◌&&◌, if◌then◌else◌, Some, None, nat_lt};
ghost use Rattle.std.specs.Char.{is_ascii_digit};
ghost use Rattle.std.specs.Option.{ok_or};
ghost use Rattle.lists.specs.Limits.{numbers_end};
ghost use Rattle.lists.specs.Numeral.{numeral, numeral_on};
ghost use Rattle.lists.specs.declared.fault.NumberFault.TheVariants.{NotNumber};

use crate::fault::NumberFault;

// The number with one digit more behind it.
fn with_digit(n: u32, b: u8) -> Option<u32>
    ensures { result ≡ (if is_ascii_digit b && nat_lt (10 * n + (b - 48)) numbers_end then Some (10 * n + (b - 48)) else None) }
{
    let digit = char::from(b).to_digit(10)?;
    n.checked_mul(10)?.checked_add(digit)
}

fn value_of_digits(bytes: &[u8]) -> Option<u32>
    ensures { ok_or result NotNumber ≡ numeral_on 0 bytes.now }
{
    let mut n = 0;
    for b in bytes {
        n = with_digit(n, *b)?;
    }
    Some(n)
}

pub(crate) fn read_number(bytes: &[u8]) -> Result<u32, NumberFault>
    ensures { result ≡ numeral bytes.now }
{
    match bytes {
        [] | [b'0', _, ..] => Err(NumberFault::NotNumber),
        _ => value_of_digits(bytes).ok_or(NumberFault::NotNumber),
    }
}
