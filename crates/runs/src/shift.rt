ghost use Rattle.std.specs.Prelude.{◌≡◌, ℕ, ◌+◌, ◌<◌, ◌≤◌, if◌then◌else◌, nat_lt, slice_index_or};
ghost use Rattle.runs.specs.Views.{no_vector, no_column, degree_at};
ghost use Rattle.runs.specs.Shifts.{before, Shifted};

use crate::tables::{COEFFICIENTS, Column, Vector, reach};
use recurrences::GREATEST_SIZE;

// The first coefficients move on by a place, and a zero coefficient comes in front; the last of them is let go.
fn shift_coefficients(count: usize, own: &mut [Vector; COEFFICIENTS])
    requires some { 1 ≤ count }
    requires most { count ≤ 130 }
    ensures { (k : ℕ) → slice_index_or own.new k no_vector ≡ (if nat_lt k count then before own.old k else slice_index_or own.old k no_vector) }
{
    own.copy_within(..count - 1, 1);
    own[0] = Vector {
        entries: [0; GREATEST_SIZE],
    };
}

impl Column {
    // The coefficients move on by a place, and the degree grows by 1.
    fn shift(&mut self)
        requires { self.old.degree ≤ 128 }
        ensures shifted { Shifted self.new.degree self.old self.new }
        ensures degree { self.new.degree ≡ self.old.degree + 1 }
    {
        self.degree += 1;
        shift_coefficients(reach(self.degree), &mut self.coefficients);
    }
}

// The first columns are shifted.
pub fn shift(size: usize, columns: &mut [Column; GREATEST_SIZE])
    requires size { size ≤ 4 }
    requires room { (j : ℕ) → j < size → degree_at columns.old j ≤ 128 }
    ensures shifted { (j : ℕ) → j < size → Shifted (degree_at columns.new j) (slice_index_or columns.old j no_column) (slice_index_or columns.new j no_column) }
    ensures degrees { (j : ℕ) → j < size → degree_at columns.new j ≡ degree_at columns.old j + 1 }
{
    for column in &mut columns[..size] {
        column.shift();
    }
}
