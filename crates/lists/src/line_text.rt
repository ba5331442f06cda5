ghost use Rattle.std.specs.Prelude.{◌≡◌, ◌+◌, ◌*◌, ◌≤◌, ◌∷◌, length, decimal};
ghost use Rattle.lists.specs.Bytes.{comma};
ghost use Rattle.lists.specs.Limits.{greatest_length};
ghost use Rattle.lists.specs.LineText.{commaed, line_text};
ghost use Rattle.lists.specs.Places.{written};

use crate::put::{digits_of, put, put_bytes, put_number};

// Writes a comma and a number at a place, and answers the place behind them.
fn put_field(place: &mut [u8], at: usize, x: u32) -> usize
    requires { at + length (comma ∷ decimal x) ≤ length place.old }
    ensures next { result ≡ at + length (comma ∷ decimal x) }
    ensures place { place.new ≡ written at (comma ∷ decimal x) place.old }
{
    let next = put(place, at, b',');
    put_number(place, next, x)
}

// Writes numbers at a place, each behind a comma, and answers the place behind them.
fn put_fields(place: &mut [u8], at: usize, numbers: &[u32]) -> usize
    requires { at + length (commaed numbers.now) ≤ length place.old }
    ensures next { result ≡ at + length (commaed numbers.now) }
    ensures place { place.new ≡ written at (commaed numbers.now) place.old }
{
    let mut next = at;
    for x in numbers {
        next = put_field(place, next, *x);
    }
    next
}

// Writes a line at a place, and answers the place behind it.
pub(crate) fn put_line(place: &mut [u8], at: usize, start: &[u8], numbers: &[u32]) -> usize
    requires { at + length (line_text start.now numbers.now) ≤ length place.old }
    ensures next { result ≡ at + length (line_text start.now numbers.now) }
    ensures place { place.new ≡ written at (line_text start.now numbers.now) place.old }
{
    let numbers_at = put_bytes(place, at, start);
    let end_at = put_fields(place, numbers_at, numbers);
    put(place, end_at, b'\n')
}

// How many bytes numbers are written with, each behind a comma.
pub(crate) fn fields_length(numbers: &[u32]) -> usize
    requires { length numbers.now ≤ greatest_length }
    ensures value { result ≡ length (commaed numbers.now) }
    ensures few { result ≤ 11 * length numbers.now }
{
    let mut n: usize = 0;
    for x in numbers {
        n += digits_of(*x) + 1;
    }
    n
}
