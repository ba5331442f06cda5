ghost use Rattle.std.specs.Prelude.{◌≡◌, ◌+◌, ◌<◌, ◌≤◌, [], ◌∷◌, length, decimal};
ghost use Rattle.lists.specs.Places.{written};

// Writes one thing at a place, and answers the place behind it.
pub(crate) fn put<T: Copy>(place: &mut [T], at: usize, x: T) -> usize
    requires { at < length place.old }
    ensures next { result ≡ at + 1 }
    ensures place { place.new ≡ written at (x ∷ []) place.old }
{
    place[at] = x;
    at + 1
}

// Writes bytes at a place, and answers the place behind them.
pub(crate) fn put_bytes(place: &mut [u8], at: usize, bytes: &[u8]) -> usize
    requires { at + length bytes.now ≤ length place.old }
    ensures next { result ≡ at + length bytes.now }
    ensures place { place.new ≡ written at bytes.now place.old }
{
    let next = at + bytes.len();
    place[at..next].copy_from_slice(bytes);
    next
}

// Writes a number at a place, and answers the place behind it.
pub(crate) fn put_number(place: &mut [u8], at: usize, n: u32) -> usize
    requires { at + length (decimal n) ≤ length place.old }
    ensures next { result ≡ at + length (decimal n) }
    ensures place { place.new ≡ written at (decimal n) place.old }
{
    if n < 10 {
        put(place, at, b'0' + n as u8)
    } else {
        let next = put_number(place, at, n / 10);
        put(place, next, b'0' + (n % 10) as u8)
    }
}

// How many digits a number is written with.
pub(crate) fn digits_of(n: u32) -> usize
    ensures value { result ≡ length (decimal n) }
    ensures few { result ≤ 10 }
{
    n.checked_ilog10().unwrap_or(0) as usize + 1
}
