ghost use Rattle.std.specs.Prelude.{◌≡◌, ◌+◌, ◌<◌, ◌≤◌};
ghost use Rattle.rings.specs.Arithmetic.{arithmetic};
ghost use Rattle.recurrences.specs.Step.{rows, at_first};
ghost use Rattle.recurrences.specs.Run.{entry_at, run};
ghost use Rattle.runs.specs.Operations.{operations_of};
ghost use Rattle.runs.specs.Views.{matrices_of};
ghost use Rattle.runs.specs.Midsteps.{Holds};
ghost use Rattle.runs.specs.Sound.{run_of};

use crate::lanes::Lanes;
use crate::row::Row;
use crate::shift::shift;
use crate::tables::{Columns, GREATEST_COUNT, Matrix, State};
use recurrences::GREATEST_SIZE;
use rings::{Field, Ring};

impl<F: Field> Lanes<F> {
    // Every row of the step for the matrix at a place.
    fn eliminate(self, place: usize, matrices: &[Matrix; GREATEST_COUNT], columns: &mut Columns)
        requires place { place < 128 }
        requires holds { let a = arithmetic F.Field self.field in let N = self.size in Holds a N columns.old (run (operations_of a) N N (matrices_of N matrices.now) place) }
        ensures { let a = arithmetic F.Field self.field in let N = self.size in Holds a N columns.new (rows (operations_of a) N (entry_at (operations_of a).ring N (matrices_of N matrices.now) place) N (at_first (operations_of a).ring N (run (operations_of a) N N (matrices_of N matrices.now) place))).columns }
    {
        let mut opened = [true; GREATEST_SIZE];
        for i in 0..self.size {
            let row = Row {
                lanes: self,
                matrices,
                place,
                i,
            };
            row.eliminate(columns, &mut opened);
        }
    }
}

// The step for the matrix behind those that are counted.
pub fn step<F: Field>(field: F, state: &mut State)
    requires some { 1 ≤ state.old.size }
    requires small { state.old.size ≤ 4 }
    requires room { state.old.count < 128 }
    requires holds { Holds (arithmetic F.Field field) state.old.size state.old.columns (run_of (arithmetic F.Field field) state.old) }
    ensures holds { Holds (arithmetic F.Field field) state.new.size state.new.columns (run_of (arithmetic F.Field field) state.new) }
    ensures count { state.new.count ≡ state.old.count + 1 }
    ensures matrices { state.new.matrices ≡ state.old.matrices }
    ensures size { state.new.size ≡ state.old.size }
{
    let lanes = Lanes {
        field,
        size: state.size,
    };
    lanes.eliminate(state.count, &state.matrices, &mut state.columns);
    shift(state.size, &mut state.columns.auxs);
    state.count += 1;
}
