ghost use Rattle.std.specs.Prelude.{◌≡◌, ◌*◌, true, length, Some, None, Ok, Err};
ghost use Rattle.recurrences.specs.Codes.{all_codes};
ghost use Rattle.runs.specs.Refusals.{matrix_refusal};

use crate::run::Run;
use recurrences::{Refusal, are_codes};
use rings::{Field, Ring};

impl<F: Field> Run<F> {
    // A matrix that is given row by row, if it has the right length and is of codes.
    pub(super) fn checked<'a>(&self, matrix: &'a [u32]) -> Result<&'a [u32], Refusal>
        ensures { elim result [
          | Ok m ↦ (matrix_refusal F.Ring.size self.now.state.size matrix.now ≡ None) × ((m.now ≡ matrix.now) × ((length m.now ≡ self.now.state.size * self.now.state.size) × (all_codes F.Ring.size m.now ≡ true)))
          | Err e ↦ matrix_refusal F.Ring.size self.now.state.size matrix.now ≡ Some e
        ] }
    {
        if matrix.len() != self.state.size * self.state.size {
            return Err(Refusal::Length);
        }
        if !are_codes::<F>(matrix) {
            return Err(Refusal::Code);
        }
        Ok(matrix)
    }
}
