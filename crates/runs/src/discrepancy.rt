ghost use Rattle.std.specs.Prelude.{◌≡◌, ℕ, ◌<◌, false, get_or, if◌then◌else◌, nat_lt, slice_index, slice_index_or};
ghost use Rattle.recurrences.specs.Sums.{sum};
ghost use Rattle.recurrences.specs.Discrepancy.{discrepancy};
ghost use Rattle.rings.specs.Arithmetic.{arithmetic};
ghost use Rattle.runs.specs.Operations.{operations_of};
ghost use Rattle.runs.specs.Losses.{plus_times};
ghost use Rattle.runs.specs.Views.{no_column, column_of, degree_at, matrices_of};

use crate::lanes::Lanes;
use crate::row::Row;
use crate::tables::{Column, Vector};
use recurrences::GREATEST_SIZE;
use rings::{Field, Ring};

impl<F: Field> Lanes<F> {
    // A total with the product of the entries at e added.
    fn with_product(self, total: u32, e: usize, a: &Vector, b: &Vector) -> u32
        requires { e < 4 }
        ensures { result ≡ plus_times (arithmetic F.Field self.field) (slice_index a.now.entries e) total (slice_index b.now.entries e) }
    {
        self.field
            .sum(total, self.field.product(a.entries[e], b.entries[e]))
    }

    // The sum of the products of the first entries. They are so few that a loop would take longer than they do.
    fn dot(self, a: &Vector, b: &Vector) -> u32
        ensures { result ≡ sum (operations_of (arithmetic F.Field self.field)).ring self.size (λ e. (arithmetic F.Field self.field).product (slice_index a.now.entries e) (slice_index b.now.entries e)) }
    {
        let first = self.with_product(0, 0, a, b);
        if self.size == 1 {
            return first;
        }
        let second = self.with_product(first, 1, a, b);
        if self.size == 2 {
            return second;
        }
        let third = self.with_product(second, 2, a, b);
        if self.size == 3 {
            return third;
        }
        self.with_product(third, 3, a, b)
    }

    // A total with the sum of the products of the first entries added.
    fn with_dot(self, total: u32, a: &Vector, b: &Vector) -> u32
        ensures { result ≡ (arithmetic F.Field self.field).sum total (sum (operations_of (arithmetic F.Field self.field)).ring self.size (λ e. (arithmetic F.Field self.field).product (slice_index a.now.entries e) (slice_index b.now.entries e))) }
    {
        self.field.sum(total, self.dot(a, b))
    }
}

impl<F: Field> Row<'_, F> {
    // The entry of a column's discrepancy.
    pub fn entry(&self, column: &Column) -> u32
        ensures { let a = arithmetic F.Field self.now.lanes.field in let N = self.now.lanes.size in result ≡ discrepancy (operations_of a).ring N (matrices_of N self.now.matrices.now) (column_of N column.now) column.now.degree self.now.place self.now.i }
    {
        let matrices = self.matrices;
        let mut total = 0;
        let count = self.place.min(column.degree) + 1;
        for (k, coefficient) in column.coefficients[..count].iter().enumerate() {
            let row = &matrices[self.place - k].rows[self.i];
            total = self.lanes.with_dot(total, row, coefficient);
        }
        total
    }

    // The entry of a column that is open, and 0 for another.
    fn open_entry(&self, opened: bool, column: &Column) -> u32
        ensures { let a = arithmetic F.Field self.now.lanes.field in let N = self.now.lanes.size in result ≡ (if opened then discrepancy (operations_of a).ring N (matrices_of N self.now.matrices.now) (column_of N column.now) column.now.degree self.now.place self.now.i else 0) }
    {
        if opened { self.entry(column) } else { 0 }
    }

    // The entry of each open column. It is 0 for the others, so the candidates are the columns whose entry is not 0.
    pub fn entries(
        &self,
        opened: &[bool; GREATEST_SIZE],
        columns: &[Column; GREATEST_SIZE],
    ) -> [u32; GREATEST_SIZE]
        ensures { let a = arithmetic F.Field self.now.lanes.field in let N = self.now.lanes.size in (j : ℕ) → slice_index result j ≡ (if nat_lt j N then (if get_or opened.now j false then discrepancy (operations_of a).ring N (matrices_of N self.now.matrices.now) (column_of N (slice_index_or columns.now j no_column)) (degree_at columns.now j) self.now.place self.now.i else 0) else 0) }
    {
        let mut answer = [0; GREATEST_SIZE];
        for (j, entry) in answer[..self.lanes.size].iter_mut().enumerate() {
            *entry = self.open_entry(opened[j], &columns[j]);
        }
        answer
    }
}
