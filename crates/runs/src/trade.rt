ghost use Rattle.std.specs.Prelude.{◌≡◌, ℕ, ◌<◌, ◌≤◌, ◌≢◌, length, if◌then◌else◌, nat_lt, slice_index_or, slice_set};
ghost use Rattle.rings.specs.Arithmetic.{arithmetic};
ghost use Rattle.runs.specs.Views.{no_vector, no_column, coefficients_of, column_of, degree_at};
ghost use Rattle.runs.specs.Reach.{reach_of};
ghost use Rattle.runs.specs.Losses.{with_multiple, lessened};

use crate::lanes::Lanes;
use crate::tables::{COEFFICIENTS, Column, Columns, Vector, reach};
use rings::{Field, Ring};
use std::mem::swap;

impl<F: Field> Lanes<F> {
    // c times others is added to the first coefficients, and the others become what these were.
    fn trade_coefficients(
        self,
        count: usize,
        c: u32,
        own: &mut [Vector; COEFFICIENTS],
        other: &mut [Vector; COEFFICIENTS],
    )
        requires { count ≤ 130 }
        ensures own { let N = self.size in coefficients_of N own.new ≡ with_multiple (arithmetic F.Field self.field) N count c (coefficients_of N other.old) (coefficients_of N own.old) }
        ensures other { (k : ℕ) → slice_index_or other.new k no_vector ≡ (if nat_lt k count then slice_index_or own.old k no_vector else slice_index_or other.old k no_vector) }
    {
        for (k, vector) in own[..count].iter_mut().enumerate() {
            let old = *vector;
            self.add_multiple(c, vector, &other[k]);
            other[k] = old;
        }
    }

    // A column loses c times another, which becomes what the column was; their degrees change places.
    fn trade_columns(self, c: u32, own: &mut Column, other: &mut Column)
        ensures own { let N = self.size in column_of N own.new ≡ lessened (arithmetic F.Field self.field) N (reach_of other.old.degree) c (column_of N other.old) (column_of N own.old) }
        ensures own_degree { own.new.degree ≡ other.old.degree }
        ensures other { (k : ℕ) → slice_index_or other.new.coefficients k no_vector ≡ (if nat_lt k (reach_of other.old.degree) then slice_index_or own.old.coefficients k no_vector else slice_index_or other.old.coefficients k no_vector) }
        ensures other_degree { other.new.degree ≡ own.old.degree }
    {
        self.trade_coefficients(
            reach(other.degree),
            self.field.opposite(c),
            &mut own.coefficients,
            &mut other.coefficients,
        );
        swap(&mut own.degree, &mut other.degree);
    }

    // Generator column l loses c times auxiliary column i, which becomes what column l was; their degrees change places.
    pub fn trade(self, i: usize, l: usize, c: u32, columns: &mut Columns)
        requires row { i < self.size }
        requires column { l < self.size }
        ensures gen_column { let N = self.size in column_of N (slice_index_or columns.new.gens l no_column) ≡ lessened (arithmetic F.Field self.field) N (reach_of (degree_at columns.old.auxs i)) c (column_of N (slice_index_or columns.old.auxs i no_column)) (column_of N (slice_index_or columns.old.gens l no_column)) }
        ensures gen_degree { degree_at columns.new.gens l ≡ degree_at columns.old.auxs i }
        ensures other_gens { (j : ℕ) → j ≢ l → slice_index_or columns.new.gens j no_column ≡ slice_index_or columns.old.gens j no_column }
        ensures aux_column { (k : ℕ) → slice_index_or (slice_index_or columns.new.auxs i no_column).coefficients k no_vector ≡ (if nat_lt k (reach_of (degree_at columns.old.auxs i)) then slice_index_or (slice_index_or columns.old.gens l no_column).coefficients k no_vector else slice_index_or (slice_index_or columns.old.auxs i no_column).coefficients k no_vector) }
        ensures aux_degree { degree_at columns.new.auxs i ≡ degree_at columns.old.gens l }
        ensures other_auxs { (j : ℕ) → j ≢ i → slice_index_or columns.new.auxs j no_column ≡ slice_index_or columns.old.auxs j no_column }
    {
        self.trade_columns(c, &mut columns.gens[l], &mut columns.auxs[i]);
    }
}

// Auxiliary column i becomes a copy of generator column l; their degrees change places.
pub fn copy(i: usize, l: usize, columns: &mut Columns)
    requires row { i < 4 }
    requires column { l < 4 }
    ensures gens { columns.new.gens ≡ slice_set columns.old.gens l (record { degree = degree_at columns.old.auxs i; coefficients = (slice_index_or columns.old.gens l no_column).coefficients }) }
    ensures auxs { columns.new.auxs ≡ slice_set columns.old.auxs i (slice_index_or columns.old.gens l no_column) }
    ensures lengths { (length columns.old.gens ≡ 4) × (length columns.old.auxs ≡ 4) }
{
    let degree = columns.auxs[i].degree;
    columns.auxs[i] = columns.gens[l];
    columns.gens[l].degree = degree;
}
