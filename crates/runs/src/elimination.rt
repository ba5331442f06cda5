ghost use Rattle.std.specs.Prelude.{◌≡◌, ℕ, ◌<◌, ◌≤◌, length, if◌then◌else◌, nat_lt, slice_index, slice_index_or, slice_set};
ghost use Rattle.recurrences.specs.Fields.{or_else, quotient};
ghost use Rattle.rings.specs.Arithmetic.{arithmetic};
ghost use Rattle.runs.specs.Operations.{operations_of};
ghost use Rattle.runs.specs.Views.{no_column, coefficients_of, column_of, degree_at};
ghost use Rattle.runs.specs.Reach.{reach_of};
ghost use Rattle.runs.specs.Losses.{plus_times, with_multiple, lessened, reduced_by};

use crate::lanes::Lanes;
use crate::tables::{COEFFICIENTS, Column, Columns, Vector, reach};
use recurrences::GREATEST_SIZE;
use rings::{Field, Ring};

// The inverse, and 0 where there is none.
pub fn inverse_or_zero<F: Field>(field: F, a: u32) -> u32
    ensures { result ≡ or_else 0 ((arithmetic F.Field field).inverse a) }
{
    field.inverse(a).unwrap_or(0)
}

impl<F: Field> Lanes<F> {
    pub fn quotient(self, a: u32, b: u32) -> u32
        ensures { result ≡ quotient (operations_of (arithmetic F.Field self.field)) a b }
    {
        self.field.product(a, inverse_or_zero(self.field, b))
    }

    // c times the entry at e of another vector is added to the entry at e.
    fn add_at(self, e: usize, c: u32, own: &mut Vector, other: &Vector)
        requires { e < 4 }
        ensures entries { own.new.entries ≡ slice_set own.old.entries e (plus_times (arithmetic F.Field self.field) c (slice_index own.old.entries e) (slice_index other.now.entries e)) }
        ensures length { length own.old.entries ≡ 4 }
    {
        own.entries[e] = self
            .field
            .sum(own.entries[e], self.field.product(c, other.entries[e]));
    }

    // c times another vector is added to the first entries. They are so few that a loop would take longer than they do.
    pub fn add_multiple(self, c: u32, own: &mut Vector, other: &Vector)
        ensures { (e : ℕ) → slice_index own.new.entries e ≡ (if nat_lt e self.size then plus_times (arithmetic F.Field self.field) c (slice_index own.old.entries e) (slice_index other.now.entries e) else slice_index own.old.entries e) }
    {
        self.add_at(0, c, own, other);
        if self.size == 1 {
            return;
        }
        self.add_at(1, c, own, other);
        if self.size == 2 {
            return;
        }
        self.add_at(2, c, own, other);
        if self.size == 3 {
            return;
        }
        self.add_at(3, c, own, other);
    }

    // c times others is added to the first coefficients.
    fn add_multiples(
        self,
        count: usize,
        c: u32,
        own: &mut [Vector; COEFFICIENTS],
        other: &[Vector; COEFFICIENTS],
    )
        requires { count ≤ 130 }
        ensures { let N = self.size in coefficients_of N own.new ≡ with_multiple (arithmetic F.Field self.field) N count c (coefficients_of N other.now) (coefficients_of N own.old) }
    {
        for (k, vector) in own[..count].iter_mut().enumerate() {
            self.add_multiple(c, vector, &other[k]);
        }
    }

    // A column loses c times another.
    fn lessen(self, c: u32, own: &mut Column, other: &Column)
        ensures column { let N = self.size in column_of N own.new ≡ lessened (arithmetic F.Field self.field) N (reach_of other.now.degree) c (column_of N other.now) (column_of N own.old) }
        ensures degree { own.new.degree ≡ own.old.degree }
    {
        self.add_multiples(
            reach(other.degree),
            self.field.opposite(c),
            &mut own.coefficients,
            &other.coefficients,
        );
    }

    // A column whose entry is not 0 loses so much of the pivot column that its entry becomes 0. The pivot column's entry has the given inverse.
    fn reduce_one(self, entry: u32, inverse: u32, own: &mut Column, pivot: &Column)
        ensures column { let N = self.size in column_of N own.new ≡ reduced_by (arithmetic F.Field self.field) N (reach_of pivot.now.degree) entry inverse (column_of N pivot.now) (column_of N own.old) }
        ensures degree { own.new.degree ≡ own.old.degree }
    {
        if entry != 0 {
            self.lessen(self.field.product(entry, inverse), own, pivot);
        }
    }

    // The columns whose entries are not 0 are reduced by the pivot column, whose entry has the given inverse.
    fn reduce(
        self,
        entries: &[u32; GREATEST_SIZE],
        inverse: u32,
        columns: &mut [Column; GREATEST_SIZE],
        pivot: &Column,
    )
        ensures columns { let N = self.size in (j : ℕ) → column_of N (slice_index_or columns.new j no_column) ≡ (if nat_lt j N then reduced_by (arithmetic F.Field self.field) N (reach_of pivot.now.degree) (slice_index entries.now j) inverse (column_of N pivot.now) (column_of N (slice_index_or columns.old j no_column)) else column_of N (slice_index_or columns.old j no_column)) }
        ensures degrees { (j : ℕ) → degree_at columns.new j ≡ degree_at columns.old j }
    {
        for (j, column) in columns[..self.size].iter_mut().enumerate() {
            self.reduce_one(entries[j], inverse, column, pivot);
        }
    }

    // The generator columns whose entries are not 0 are reduced by auxiliary column i, whose entry is given.
    pub fn reduce_by(
        self,
        i: usize,
        entries: &[u32; GREATEST_SIZE],
        entry: u32,
        columns: &mut Columns,
    )
        requires { i < self.size }
        ensures gens { let a = arithmetic F.Field self.field in let N = self.size in (j : ℕ) → column_of N (slice_index_or columns.new.gens j no_column) ≡ (if nat_lt j N then reduced_by a N (reach_of (degree_at columns.old.auxs i)) (slice_index entries.now j) (or_else 0 (a.inverse entry)) (column_of N (slice_index_or columns.old.auxs i no_column)) (column_of N (slice_index_or columns.old.gens j no_column)) else column_of N (slice_index_or columns.old.gens j no_column)) }
        ensures gen_degrees { (j : ℕ) → degree_at columns.new.gens j ≡ degree_at columns.old.gens j }
        ensures auxs { columns.new.auxs ≡ columns.old.auxs }
    {
        let auxs = &columns.auxs;
        self.reduce(
            entries,
            inverse_or_zero(self.field, entry),
            &mut columns.gens,
            &auxs[i],
        );
    }
}
