ghost use Rattle.std.specs.Prelude.{◌≡◌, ℕ, ◌+◌, ◌*◌, ◌≤◌, length, if◌then◌else◌, nat_lt, slice_index};
ghost use Rattle.recurrences.specs.Reading.{matrices_in};
ghost use Rattle.runs.specs.Views.{matrix_of};

use crate::tables::{Matrix, Vector};
use recurrences::GREATEST_SIZE;

// A row of a matrix, from its codes.
fn line(size: usize, codes: &[u32]) -> Vector
    requires size { size ≤ 4 }
    requires length { length codes.now ≡ size }
    ensures { (c : ℕ) → slice_index result.entries c ≡ (if nat_lt c size then slice_index codes.now c else 0) }
{
    let mut entries = [0; GREATEST_SIZE];
    entries[..size].copy_from_slice(codes);
    Vector { entries }
}

// A matrix that is given row by row.
pub fn square(size: usize, codes: &[u32]) -> Matrix
    requires size { size ≤ 4 }
    requires length { length codes.now ≡ size * size }
    ensures { (i c : ℕ) → matrix_of size result i c ≡ matrices_in size size codes.now 0 i c }
{
    let mut rows = [Vector::ZERO; GREATEST_SIZE];
    for (i, row) in rows[..size].iter_mut().enumerate() {
        *row = line(size, &codes[i * size..(i + 1) * size]);
    }
    Matrix { rows }
}
