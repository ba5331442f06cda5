ghost use Rattle.std.specs.Prelude.{◌≡◌, ℕ, ◌<◌, ◌≤◌, length, slice_index_or};
ghost use Rattle.rings.specs.Arithmetic.{arithmetic};
ghost use Rattle.recurrences.specs.Degrees.{total, greatest, least};
ghost use Rattle.runs.specs.Recorded.{recorded};
ghost use Rattle.runs.specs.Standings.{columns_after, count_of, shown};
ghost use Rattle.runs.specs.Views.{no_column, degree_at, column_of};

use crate::run::Run;
use crate::tables::Column;
use rings::{Field, Ring};

// The columns of the run, which its tables hold in front.
impl<F: Field> Run<F> {
    pub(super) fn generators(&self) -> &[Column]
        ensures size { length result.now ≡ self.now.state.size }
        ensures small { length result.now ≤ 4 }
        ensures columns { (j k e : ℕ) → j < self.now.state.size → column_of self.now.state.size (slice_index_or result.now j no_column) k e ≡ (columns_after (arithmetic F.Field self.now.field) self.now.state.size (recorded self.now.state)).gen j k e }
        ensures degrees { (j : ℕ) → j < self.now.state.size → degree_at result.now j ≡ (columns_after (arithmetic F.Field self.now.field) self.now.state.size (recorded self.now.state)).gen_degree j }
        ensures total { total self.now.state.size (degree_at result.now) ≡ total self.now.state.size (columns_after (arithmetic F.Field self.now.field) self.now.state.size (recorded self.now.state)).gen_degree }
        ensures greatest { greatest self.now.state.size (degree_at result.now) ≡ greatest self.now.state.size (columns_after (arithmetic F.Field self.now.field) self.now.state.size (recorded self.now.state)).gen_degree }
        ensures shown { shown self.now.state.size (degree_at result.now) ≡ shown self.now.state.size (columns_after (arithmetic F.Field self.now.field) self.now.state.size (recorded self.now.state)).gen_degree }
        ensures low { (j : ℕ) → j < self.now.state.size → degree_at result.now j ≤ 128 }
    {
        &self.state.columns.gens[..self.state.size]
    }

    pub(super) fn auxiliaries(&self) -> &[Column]
        ensures size { length result.now ≡ self.now.state.size }
        ensures degrees { (j : ℕ) → j < self.now.state.size → degree_at result.now j ≡ (columns_after (arithmetic F.Field self.now.field) self.now.state.size (recorded self.now.state)).aux_degree j }
        ensures least { least self.now.state.size (degree_at result.now) ≡ least self.now.state.size (columns_after (arithmetic F.Field self.now.field) self.now.state.size (recorded self.now.state)).aux_degree }
        ensures shown { shown self.now.state.size (degree_at result.now) ≡ shown self.now.state.size (columns_after (arithmetic F.Field self.now.field) self.now.state.size (recorded self.now.state)).aux_degree }
    {
        &self.state.columns.auxs[..self.state.size]
    }

    // How many matrices it has taken.
    pub(super) fn taken(&self) -> usize
        ensures { result ≡ count_of self.now.state.size (recorded self.now.state) }
    {
        self.state.count
    }
}
