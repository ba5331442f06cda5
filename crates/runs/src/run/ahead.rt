ghost use Rattle.std.specs.Prelude.{◌≡◌, ℕ, ◌+◌, ◌-◌, ◌*◌, ◌<◌, ◌≤◌, length, if◌then◌else◌, nat_lt, slice_index};
ghost use Rattle.recurrences.specs.Sums.{sum};
ghost use Rattle.rings.specs.Arithmetic.{arithmetic};
ghost use Rattle.runs.specs.Equations.{Side, equation_of, equations_of};
ghost use Rattle.runs.specs.NextMatrix.{matrices_with, behind, equation_for};
ghost use Rattle.runs.specs.Operations.{operations_of};
ghost use Rattle.runs.specs.Views.{column_of};

use crate::equation::Equation;
use crate::run::Run;
use crate::tables::{Column, Vector};
use recurrences::GREATEST_SIZE;
use rings::{Field, Ring};

// The matrices that a run took, those written behind them in a place, and the end: where the next one is sought. The place has room for it.
#[derive(Drop)]
pub struct Ahead<'a, F: Field> {
    pub run: &'a Run<F>,
    pub place: &'a [u32],
    pub end: usize,
    ghost within: { (end - run.now.state.count + 1) * (run.now.state.size * run.now.state.size) ≤ length place.now },
}

impl<'a, F: Field> Ahead<'a, F> {
    // Entry c of row r of the matrix so many places before the end.
    fn code(&self, back: usize, r: usize, c: usize) -> u32
        requires back { back ≤ self.now.end }
        requires row { r < self.now.run.now.state.size }
        requires column { c < self.now.run.now.state.size }
        ensures { result ≡ matrices_with self.now.run.now.state self.now.place.now (self.now.end - back) r c }
    {
        let l = self.end - back;
        let state = &self.run.state;
        if l < state.count {
            state.matrices[l].rows[r].entries[c]
        } else {
            self.place[((l - state.count) * state.size + r) * state.size + c]
        }
    }

    // Row r of the matrix so many places before the end, times a vector.
    fn row_times(&self, back: usize, r: usize, vector: &Vector) -> u32
        requires back { back ≤ self.now.end }
        requires row { r < self.now.run.now.state.size }
        ensures { result ≡ sum (operations_of (arithmetic F.Field self.now.run.now.field)).ring self.now.run.now.state.size (λ c. (arithmetic F.Field self.now.run.now.field).product (matrices_with self.now.run.now.state self.now.place.now (self.now.end - back) r c) (slice_index vector.now.entries c)) }
    {
        let field = self.run.field;
        let mut total = 0;
        for (c, entry) in vector.entries[..self.run.state.size].iter().enumerate() {
            total = field.sum(total, field.product(self.code(back, r, c), *entry));
        }
        total
    }

    // Entry r of what the coefficients of a column, without the constant one, give at the end. k + 1 is the place of a
    // coefficient and the distance back to its matrix.
    fn entry_behind(&self, r: usize, column: &Column) -> u32
        requires row { r < self.now.run.now.state.size }
        requires degree { column.now.degree < 130 }
        ensures { result ≡ behind (arithmetic F.Field self.now.run.now.field) self.now.run.now.state.size (matrices_with self.now.run.now.state self.now.place.now) (column_of self.now.run.now.state.size column.now) column.now.degree self.now.end r }
    {
        let field = self.run.field;
        let mut total = 0;
        for k in 0..self.end.min(column.degree) {
            total = field.sum(total, self.row_times(k + 1, r, &column.coefficients[k + 1]));
        }
        total
    }

    // The opposites of what the coefficients of a column, without the constant one, give at the end.
    fn values(&self, column: &Column) -> Vector
        requires { column.now.degree < 130 }
        ensures { (r : ℕ) → slice_index result.entries r ≡ (if nat_lt r self.now.run.now.state.size then (arithmetic F.Field self.now.run.now.field).opposite (behind (arithmetic F.Field self.now.run.now.field) self.now.run.now.state.size (matrices_with self.now.run.now.state self.now.place.now) (column_of self.now.run.now.state.size column.now) column.now.degree self.now.end r) else 0) }
    {
        let mut entries = [0; GREATEST_SIZE];
        for (r, entry) in entries[..self.run.state.size].iter_mut().enumerate() {
            *entry = self.run.field.opposite(self.entry_behind(r, column));
        }
        Vector { entries }
    }

    // The equation of generator column j for the matrix at the end.
    fn equation(&self, j: usize) -> Equation
        requires { j < self.now.run.now.state.size }
        ensures { (s : Side) (e : ℕ) → equation_of result s e ≡ equation_for (arithmetic F.Field self.now.run.now.field) self.now.run.now.state self.now.place.now self.now.end j s e }
    {
        let gens = &self.run.state.columns.gens;
        let column = &gens[j];
        Equation {
            vector: column.coefficients[0],
            values: self.values(column),
        }
    }

    // The equations of all generator columns for the matrix at the end.
    pub fn equations(&self) -> [Equation; GREATEST_SIZE]
        ensures { (j : ℕ) → j < self.now.run.now.state.size → equations_of result j ≡ equation_for (arithmetic F.Field self.now.run.now.field) self.now.run.now.state self.now.place.now self.now.end j }
    {
        let mut equations = [Equation::ZERO; GREATEST_SIZE];
        for (j, equation) in equations[..self.run.state.size].iter_mut().enumerate() {
            *equation = self.equation(j);
        }
        equations
    }
}
