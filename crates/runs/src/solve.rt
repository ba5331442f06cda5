ghost use Rattle.std.specs.Prelude.{◌≡◌, ℕ, ◌<◌, ◌≤◌, ◌⊎◌, if◌then◌else◌, nat_lt, slice_index};
ghost use Rattle.rings.specs.Arithmetic.{arithmetic};
ghost use Rattle.runs.specs.Operations.{operations_of};
ghost use Rattle.runs.specs.Losses.{plus_times};
ghost use Rattle.runs.specs.Equations.{Side, left, right, equation_of, equations_of, matrix_of};
ghost use Rattle.runs.specs.Clearing.{cleared, Clears, solved};
ghost use Rattle.runs.specs.Solve.{OnlySolution};

use crate::elimination::inverse_or_zero;
use crate::equation::Equation;
use crate::lanes::Lanes;
use crate::tables::{Matrix, Vector};
use recurrences::GREATEST_SIZE;
use rings::{Field, Ring};

impl<F: Field> Lanes<F> {
    // c times another equation is added to both sides.
    fn add_equation(self, c: u32, own: &mut Equation, other: &Equation)
        ensures { (s : Side) (e : ℕ) → equation_of own.new s e ≡ (if nat_lt e self.size then plus_times (arithmetic F.Field self.field) c (equation_of own.old s e) (equation_of other.now s e) else equation_of own.old s e) }
    {
        self.add_multiple(c, &mut own.vector, &other.vector);
        self.add_multiple(c, &mut own.values, &other.values);
    }

    // Equation j loses so much of the pivot equation, which stands at c and whose entry c has the given inverse, that its entry c becomes 0.
    fn clear_one(self, c: usize, j: usize, inverse: u32, own: &mut Equation, pivot: &Equation)
        requires { c < self.size }
        ensures { (s : Side) (e : ℕ) → equation_of own.new s e ≡ cleared (arithmetic F.Field self.field) self.size c j inverse (equation_of pivot.now) (equation_of own.old) s e }
    {
        if j != c {
            let share = self.field.product(own.vector.entries[c], inverse);
            self.add_equation(self.field.opposite(share), own, pivot);
        }
    }

    // All equations but the one at c, which is the pivot equation, are cleared by it.
    fn clear_others(
        self,
        c: usize,
        inverse: u32,
        equations: &mut [Equation; GREATEST_SIZE],
        pivot: &Equation,
    )
        requires { c < self.size }
        ensures { (j : ℕ) → equations_of equations.new j ≡ (if nat_lt j self.size then cleared (arithmetic F.Field self.field) self.size c j inverse (equation_of pivot.now) (equations_of equations.old j) else equations_of equations.old j) }
    {
        for (j, equation) in equations[..self.size].iter_mut().enumerate() {
            self.clear_one(c, j, inverse, equation, pivot);
        }
    }

    // The first equation from c on whose entry c is not 0, and c where there is none.
    fn pivot(self, c: usize, equations: &[Equation; GREATEST_SIZE]) -> usize
        requires { c < self.size }
        ensures from { c ≤ result }
        ensures below { result < self.size }
        ensures none { equations_of equations.now result left c ≡ 0 → (j : ℕ) → c ≤ j → j < self.size → equations_of equations.now j left c ≡ 0 }
    {
        (c..self.size)
            .find(|j| equations[*j].vector.entries[c] != 0)
            .unwrap_or(c)
    }

    // By one equation from c on whose entry c is not 0, and which comes to stand at c, that entry becomes 0 in all others.
    fn clear(self, c: usize, equations: &mut [Equation; GREATEST_SIZE])
        requires { c < self.size }
        ensures { Clears (operations_of (arithmetic F.Field self.field)) self.size c (equations_of equations.old) (equations_of equations.new) }
    {
        let p = self.pivot(c, equations);
        equations.swap(c, p);
        let chosen = equations[c];
        let inverse = inverse_or_zero(self.field, chosen.vector.entries[c]);
        self.clear_others(c, inverse, equations, &chosen);
    }

    // Row r of the solution: each entry is read off one equation, in which one entry alone is left.
    fn solution_row(self, r: usize, equations: &[Equation; GREATEST_SIZE]) -> Vector
        requires { r < self.size }
        ensures { (c : ℕ) → slice_index result.entries c ≡ (if nat_lt c self.size then solved (operations_of (arithmetic F.Field self.field)) (equations_of equations.now) r c else 0) }
    {
        let mut entries = [0; GREATEST_SIZE];
        for (c, entry) in entries[..self.size].iter_mut().enumerate() {
            let equation = equations[c];
            *entry = self.quotient(equation.values.entries[r], equation.vector.entries[c]);
        }
        Vector { entries }
    }

    // The solution, where in each equation one entry alone is left.
    fn solution(self, equations: &[Equation; GREATEST_SIZE]) -> Matrix
        ensures { (r : ℕ) → matrix_of result r ≡ (if nat_lt r self.size then (λ c. (if nat_lt c self.size then solved (operations_of (arithmetic F.Field self.field)) (equations_of equations.now) r c else 0)) else (λ _. 0)) }
    {
        let mut rows = [Vector::ZERO; GREATEST_SIZE];
        for (r, row) in rows[..self.size].iter_mut().enumerate() {
            *row = self.solution_row(r, equations);
        }
        Matrix { rows }
    }

    // Solves the equations for a matrix, one entry of each vector after the other.
    pub(crate) fn solve(self, mut equations: [Equation; GREATEST_SIZE]) -> Matrix
        ensures solution { OnlySolution (arithmetic F.Field self.field) self.size (λ j. equations_of equations j left) (λ j. equations_of equations j right) (matrix_of result) }
        ensures outside { (r c : ℕ) → (self.size ≤ r) ⊎ (self.size ≤ c) → matrix_of result r c ≡ 0 }
    {
        for c in 0..self.size {
            self.clear(c, &mut equations);
        }
        self.solution(&equations)
    }
}
