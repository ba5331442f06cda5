ghost use Rattle.std.specs.Prelude.{◌≡◌, ◌*◌, ◌%◌, true, [], length, None, Some, Ok, Err};
ghost use Rattle.rings.specs.Arithmetic.{arithmetic};
ghost use Rattle.recurrences.specs.Codes.{all_codes};
ghost use Rattle.runs.specs.Recorded.{recorded};
ghost use Rattle.verdicts.specs.Refusals.{list_refusal};
ghost use Rattle.verdicts.specs.Taking.{taken_of};

use recurrences::{Bound, Refusal, Size, are_codes};
use rings::{Field, Ring};
use runs::run::Run;
use std::marker::PhantomData;

// A list of whole matrices of codes of a field, one behind the other and each row by row, with their size and a bound.
#[derive(Drop)]
pub(crate) struct Recording<'a, F: Field> {
    size: Size,
    bound: Bound,
    codes: &'a [u32],
    of: PhantomData<F>,
    ghost whole: { length codes.now % (size * size) ≡ 0 },
    ghost of_codes: { all_codes F.Ring.size codes.now ≡ true },
}

impl<'a, F: Field> Recording<'a, F> {
    pub(crate) fn new(size: usize, bound: usize, codes: &'a [u32]) -> Result<Self, Refusal>
        ensures { elim result [
          | Ok r ↦ (list_refusal F.Ring.size size bound codes.now ≡ None) × ((r.size ≡ size) × ((r.bound ≡ bound) × (r.codes.now ≡ codes.now)))
          | Err e ↦ list_refusal F.Ring.size size bound codes.now ≡ Some e
        ] }
    {
        let size = Size::try_from(size)?;
        let bound = Bound::try_from(bound)?;
        if codes.len() % size.cells() != 0 {
            return Err(Refusal::Length);
        }
        if !are_codes::<F>(codes) {
            return Err(Refusal::Code);
        }
        Ok(Recording {
            size,
            bound,
            codes,
            of: PhantomData,
        })
    }

    // Offers the matrices one after the other while the run, which has taken nothing, is running.
    fn offer_all(&self, run: &mut Run<F>)
        requires size { run.old.state.size ≡ self.now.size }
        requires fresh { recorded run.old.state ≡ [] }
        ensures field { run.new.field ≡ run.old.field }
        ensures size { run.new.state.size ≡ self.now.size }
        ensures bound { run.new.bound ≡ run.old.bound }
        ensures taken { recorded run.new.state ≡ taken_of (arithmetic F.Field run.old.field) self.now.size run.old.bound self.now.codes.now }
    {
        for matrix in self.codes.chunks_exact(self.size.cells()) {
            let Ok(()) = run.offer(matrix) else {
                return;
            };
        }
    }

    // Starts a run, and offers it the matrices one after the other while it is running.
    pub(crate) fn drive(&self, field: F, run: &mut Run<F>)
        ensures field { run.new.field ≡ field }
        ensures size { run.new.state.size ≡ self.now.size }
        ensures bound { run.new.bound ≡ self.now.bound }
        ensures taken { recorded run.new.state ≡ taken_of (arithmetic F.Field field) self.now.size self.now.bound self.now.codes.now }
    {
        run.start(field, self.size.rows(), self.bound.degree())
            .unwrap();
        self.offer_all(run);
    }
}
