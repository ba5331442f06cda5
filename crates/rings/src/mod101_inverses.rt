ghost use Rattle.std.specs.Prelude.{◌≡◌, ◌*◌, ◌%◌, ◌^◌, ◌<◌};

// At each code the code whose product with it leaves the remainder 1 on division by 101, and 0 at 0.
const INVERSES: [u8; 101] = [
    0, 1, 51, 34, 76, 81, 17, 29, 38, 45, 91, 46, 59, 70, 65, 27, 19, 6, 73, 16, 96, 77, 23, 22,
    80, 97, 35, 15, 83, 7, 64, 88, 60, 49, 3, 26, 87, 71, 8, 57, 48, 69, 89, 47, 62, 9, 11, 43, 40,
    33, 99, 2, 68, 61, 58, 90, 92, 39, 54, 12, 32, 53, 44, 93, 30, 14, 75, 98, 52, 41, 13, 37, 94,
    18, 86, 66, 4, 21, 79, 78, 24, 5, 85, 28, 95, 82, 74, 36, 31, 42, 55, 10, 56, 63, 72, 84, 20,
    25, 67, 50, 100,
];

pub fn inverse_at(a: usize) -> u8
    requires { a < 101 }
    ensures entry { result ≡ a ^ 99 % 101 }
    ensures rule { 0 < a → a * result % 101 ≡ 1 }
{
    INVERSES[a]
}
