ghost use Rattle.std.specs.Prelude.{◌≡◌, ℕ, ◌+◌, ◌<◌, length, slice_set};
ghost use Rattle.recurrences.specs.declared.phase.Phase.TheVariants.{Running};
ghost use Rattle.rings.specs.Arithmetic.{arithmetic};
ghost use Rattle.runs.specs.Ran.{RanIn};
ghost use Rattle.runs.specs.Recorded.{recorded};
ghost use Rattle.runs.specs.Standings.{phase_after};
ghost use Rattle.runs.specs.Views.{matrix_of};
ghost use Rattle.runs.specs.Sound.{Sound};

use crate::step::step;
use crate::tables::{Matrix, State};
use rings::{Field, Ring};

// Takes a matrix of codes, where there is room for one more.
pub fn advance<F: Field>(field: F, state: &mut State, matrix: &Matrix)
    requires sound { Sound (arithmetic F.Field field) state.old }
    requires room { state.old.count < 128 }
    requires codes { (r c : ℕ) → matrix_of state.old.size matrix.now r c < F.Ring.size }
    ensures sound { Sound (arithmetic F.Field field) state.new }
    ensures count { state.new.count ≡ state.old.count + 1 }
    ensures matrices { state.new.matrices ≡ slice_set state.old.matrices state.old.count matrix.now }
    ensures size { state.new.size ≡ state.old.size }
    ensures ran { (bound : ℕ) → phase_after (arithmetic F.Field field) state.old.size bound (recorded state.old) ≡ Running → RanIn (arithmetic F.Field field) bound state.old → RanIn (arithmetic F.Field field) bound state.new }
    ensures length { length state.old.matrices ≡ 128 }
{
    state.matrices[state.count] = *matrix;
    step(field, state);
}
