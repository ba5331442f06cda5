ghost use Rattle.std.specs.Prelude.{◌≡◌, ℕ, ◌+◌, ◌*◌, ◌/◌, ◌%◌, ◌<◌, ◌≤◌, length, Some, None, Ok, Err, slice_index};
ghost use Rattle.recurrences.specs.Discrepancy.{discrepancy};
ghost use Rattle.recurrences.specs.Reading.{matrices_in};
ghost use Rattle.rings.specs.Arithmetic.{arithmetic};
ghost use Rattle.runs.specs.Continuing.{ContinuationIs, ContinuesWith, OnlyContinuation};
ghost use Rattle.runs.specs.Equations.{matrix_of};
ghost use Rattle.runs.specs.NextMatrix.{matrices_with};
ghost use Rattle.runs.specs.Operations.{operations_of};
ghost use Rattle.runs.specs.Recorded.{recorded};
ghost use Rattle.runs.specs.Refusals.{counted_refusal};
ghost use Rattle.runs.specs.Standings.{columns_after};

use crate::lanes::Lanes;
use crate::run::Run;
use crate::run::ahead::Ahead;
use crate::tables::Matrix;
use recurrences::{GREATEST_CONTINUATION, Refusal};
use rings::{Field, Ring};

// Writes the codes of a matrix, row by row, from a start on. The row and the column are both read off t, so a walk along
// the place would have to count t as well.
fn write_matrix(size: usize, matrix: &Matrix, start: usize, place: &mut [u32])
    requires some { 0 < size }
    requires size { size ≤ 4 }
    requires within { start + size * size ≤ length place.old }
    ensures before { (x : ℕ) → x < start → slice_index place.new x ≡ slice_index place.old x }
    ensures written { (t : ℕ) → t < size * size → slice_index place.new (start + t) ≡ matrix_of matrix.now (t / size) (t % size) }
{
    for t in 0..size * size {
        place[start + t] = matrix.rows[t / size].entries[t % size];
    }
}

impl<F: Field> Run<F> {
    // Writes matrix i of the place, the one that continues those taken and those before it in the place.
    fn write_next(&self, i: usize, place: &mut [u32])
        requires few { i < 64 }
        requires within { (i + 1) * (self.now.state.size * self.now.state.size) ≤ length place.old }
        ensures before { (x : ℕ) → x < i * (self.now.state.size * self.now.state.size) → slice_index place.new x ≡ slice_index place.old x }
        ensures codes { (r c : ℕ) → r < self.now.state.size → c < self.now.state.size → matrices_in self.now.state.size self.now.state.size place.new i r c < F.Ring.size }
        ensures zeros { (j r : ℕ) → j < self.now.state.size → r < self.now.state.size → discrepancy (operations_of (arithmetic F.Field self.now.field)).ring self.now.state.size (matrices_with self.now.state place.new) ((columns_after (arithmetic F.Field self.now.field) self.now.state.size (recorded self.now.state)).gen j) ((columns_after (arithmetic F.Field self.now.field) self.now.state.size (recorded self.now.state)).gen_degree j) (self.now.state.count + i) r ≡ 0 }
    {
        let size = self.state.size;
        let ahead = Ahead {
            run: self,
            place,
            end: self.state.count + i,
        };
        let lanes = Lanes {
            field: self.field,
            size,
        };
        let matrix = lanes.solve(ahead.equations());
        write_matrix(size, &matrix, i * (size * size), place);
    }

    // Writes the matrices that continue those taken by the generator columns.
    fn write_continuation(&self, count: usize, place: &mut [u32])
        requires few { count ≤ 64 }
        requires length { length place.old ≡ count * (self.now.state.size * self.now.state.size) }
        ensures continues { ContinuesWith (arithmetic F.Field self.now.field) self.now.state.size (recorded self.now.state) place.new }
        ensures only { OnlyContinuation (arithmetic F.Field self.now.field) self.now.state.size (recorded self.now.state) place.new }
    {
        for i in 0..count {
            self.write_next(i, place);
        }
    }

    // Writes so many further matrices into a place of just their length, whatever the phase.
    pub(crate) fn put_counted(&self, count: usize, place: &mut [u32]) -> Result<(), Refusal>
        ensures { elim result [
          | Ok _ ↦ (counted_refusal self.now.state.size count (length place.old) ≡ None) × ContinuationIs (arithmetic F.Field self.now.field) self.now.state.size (recorded self.now.state) place.new
          | Err e ↦ (counted_refusal self.now.state.size count (length place.old) ≡ Some e) × (place.new ≡ place.old)
        ] }
    {
        if count < 1 || count > GREATEST_CONTINUATION {
            return Err(Refusal::Count);
        }
        if place.len() != count * self.size().cells() {
            return Err(Refusal::Length);
        }
        self.write_continuation(count, place);
        Ok(())
    }
}
