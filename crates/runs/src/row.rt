ghost use Rattle.std.specs.Prelude.{◌≡◌, ◌<◌, false, slice_set};
ghost use Rattle.recurrences.specs.Pivot.{Midstep};
ghost use Rattle.recurrences.specs.Step.{by_open, row};
ghost use Rattle.recurrences.specs.Run.{entry_at};
ghost use Rattle.rings.specs.Arithmetic.{arithmetic};
ghost use Rattle.runs.specs.Operations.{operations_of};
ghost use Rattle.runs.specs.Views.{degree_at, matrices_of};
ghost use Rattle.runs.specs.Candidates.{Nonzero};
ghost use Rattle.runs.specs.Midsteps.{Matches, AllTabular, Ready};

use crate::lanes::Lanes;
use crate::pivot::{auxiliary_wins, best};
use crate::tables::{Columns, GREATEST_COUNT, Matrix};
use crate::trade::copy;
use recurrences::GREATEST_SIZE;
use rings::{Field, Ring};

// Row i of the step for the matrix at a place.
#[derive(Drop)]
pub struct Row<'a, F: Field> {
    pub lanes: Lanes<F>,
    pub matrices: &'a [Matrix; GREATEST_COUNT],
    pub place: usize,
    pub i: usize,
    ghost early: { place < 128 },
    ghost inside: { i < lanes.size },
}

// Column l is no longer open.
fn close(l: usize, opened: &mut [bool; GREATEST_SIZE])
    requires { l < 4 }
    ensures { opened.new ≡ slice_set opened.old l false }
{
    opened[l] = false;
}

impl<F: Field> Row<'_, F> {
    // The row where the open column l is the pivot. It becomes auxiliary column i, by which the other candidates are reduced.
    fn by_open(
        &self,
        l: usize,
        entries: &[u32; GREATEST_SIZE],
        aux_entry: u32,
        columns: &mut Columns,
        opened: &mut [bool; GREATEST_SIZE],
    )
        requires column { l < self.now.lanes.size }
        requires candidate { Nonzero entries.now l }
        requires smaller { degree_at columns.old.gens l < degree_at columns.old.auxs self.now.i }
        ensures { let a = arithmetic F.Field self.now.lanes.field in let N = self.now.lanes.size in let M = matrices_of N self.now.matrices.now in (t : Midstep (operations_of a).ring) → Ready a N M self.now.place self.now.i entries.now aux_entry columns.old opened.old t → Matches a N columns.new opened.new (by_open (operations_of a) N (entry_at (operations_of a).ring N M self.now.place) self.now.i l t) }
    {
        let mut others = *entries;
        others[l] = 0;
        if aux_entry == 0 {
            copy(self.i, l, columns);
            close(l, opened);
        } else {
            let part = self.lanes.quotient(entries[l], aux_entry);
            self.lanes.trade(self.i, l, part, columns);
        }
        self.lanes.reduce_by(self.i, &others, entries[l], columns);
    }

    // The pivot is the best candidate or auxiliary column i; where there is no candidate, nothing changes.
    pub fn eliminate(&self, columns: &mut Columns, opened: &mut [bool; GREATEST_SIZE])
        ensures { let a = arithmetic F.Field self.now.lanes.field in let N = self.now.lanes.size in let M = matrices_of N self.now.matrices.now in (t : Midstep (operations_of a).ring) → Matches a N columns.old opened.old t → AllTabular a N t.columns → Matches a N columns.new opened.new (row (operations_of a) N (entry_at (operations_of a).ring N M self.now.place) self.now.i t) }
    {
        let entries = self.entries(opened, &columns.gens);
        if let Some(l) = best(self.lanes.size, &entries, &columns.gens) {
            let auxs = &columns.auxs;
            let aux_entry = self.entry(&auxs[self.i]);
            if auxiliary_wins(auxs[self.i].degree, columns.gens[l].degree) {
                self.lanes.reduce_by(self.i, &entries, aux_entry, columns);
            } else {
                self.by_open(l, &entries, aux_entry, columns, opened);
            }
        }
    }
}
