ghost use Rattle.std.specs.Prelude.{◌≡◌, ◌+◌, ◌-◌, ◌*◌, ◌<◌, ◌≤◌, length, Some, None, Ok, Err};
ghost use Rattle.rings.specs.Arithmetic.{arithmetic};
ghost use Rattle.runs.specs.Recorded.{recorded};
ghost use Rattle.runs.specs.Refusals.{numbered_refusal};
ghost use Rattle.runs.specs.Standings.{columns_after, column_after};

use crate::run::Run;
use recurrences::Refusal;
use rings::{Field, Ring};

// Generator columns, copied to a place.
impl<F: Field> Run<F> {
    // The length of the place for a generator column, which is counted from 0.
    fn column_length(&self, j: usize) -> usize
        requires { j < self.now.state.size }
        ensures length { result ≡ self.now.state.size * ((columns_after (arithmetic F.Field self.now.field) self.now.state.size (recorded self.now.state)).gen_degree j + 1) }
        ensures within { result ≤ self.now.state.size * 130 }
    {
        self.state.size * (self.generators()[j].degree + 1)
    }

    fn write_generator(&self, j: usize, place: &mut [u32])
        requires below { j < self.now.state.size }
        requires length { length place.old ≡ self.now.state.size * ((columns_after (arithmetic F.Field self.now.field) self.now.state.size (recorded self.now.state)).gen_degree j + 1) }
        requires within { length place.old ≤ self.now.state.size * 130 }
        ensures { place.new ≡ column_after (arithmetic F.Field self.now.field) self.now.state.size (recorded self.now.state) j }
    {
        self.generators()[j].write(self.state.size, place);
    }

    // Writes the codes of a generator column, counted from 1, into a place of just their length.
    pub(super) fn put_column(&self, number: usize, place: &mut [u32]) -> Result<(), Refusal>
        ensures { elim result [
          | Ok _ ↦ (numbered_refusal self.now.state.size number (columns_after (arithmetic F.Field self.now.field) self.now.state.size (recorded self.now.state)).gen_degree (length place.old) ≡ None) × (place.new ≡ column_after (arithmetic F.Field self.now.field) self.now.state.size (recorded self.now.state) (number - 1))
          | Err e ↦ (numbered_refusal self.now.state.size number (columns_after (arithmetic F.Field self.now.field) self.now.state.size (recorded self.now.state)).gen_degree (length place.old) ≡ Some e) × (place.new ≡ place.old)
        ] }
    {
        if number < 1 || number > self.state.size {
            return Err(Refusal::ColumnNumber);
        }
        if place.len() != self.column_length(number - 1) {
            return Err(Refusal::Length);
        }
        self.write_generator(number - 1, place);
        Ok(())
    }
}
