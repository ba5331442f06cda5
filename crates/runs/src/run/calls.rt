ghost use Rattle.std.specs.Prelude.{◌≡◌, ◌-◌, ◌*◌, ◌≤◌, true, [], ◌++◌, length, Some, None, Ok, Err};
ghost use Rattle.rings.specs.Arithmetic.{arithmetic};
ghost use Rattle.recurrences.specs.Codes.{all_codes};
ghost use Rattle.recurrences.specs.declared.phase.Phase.TheVariants.{Running};
ghost use Rattle.runs.specs.Continuing.{ContinuationIs};
ghost use Rattle.runs.specs.Promise.{Promise};
ghost use Rattle.runs.specs.Ran.{RanIn};
ghost use Rattle.runs.specs.Recorded.{recorded};
ghost use Rattle.runs.specs.Refusals.{start_refusal, offer_refusal, column_refusal, continuation_refusal};
ghost use Rattle.runs.specs.Sound.{Sound};
ghost use Rattle.runs.specs.Standings.{columns_after, column_after, phase_after, standing_after};

use crate::advance::advance;
use crate::degrees::{greatest_of, least_of, shown_of, total_of};
use crate::run::Run;
use crate::square::square;
use crate::standing::Standing;
use crate::start::start;
use recurrences::{Bound, Phase, Refusal, Size, phase_of};
use rings::{Field, Ring};

// A run over a field, with matrices of a size and a bound, that has taken nothing.
fn begin<F: Field>(field: F, size: Size, bound: Bound) -> Run<F>
    ensures over { result.field ≡ field }
    ensures size { result.state.size ≡ size }
    ensures bound { result.bound ≡ bound }
    ensures taken { recorded result.state ≡ [] }
{
    Run {
        field,
        bound: bound.degree(),
        state: start(field, size.rows()),
    }
}

impl<F: Field> Run<F> {
    // The run of size 1 and bound 0, which has taken nothing.
    pub fn new(field: F) -> Run<F>
        ensures over { result.field ≡ field }
        ensures size { result.state.size ≡ 1 }
        ensures bound { result.bound ≡ 0 }
        ensures taken { recorded result.state ≡ [] }
    {
        begin(field, Size::ONE, Bound::ZERO)
    }

    // The field that the run is over.
    pub fn field(&self) -> F
        ensures { result ≡ self.now.field }
    {
        self.field
    }

    // How many rows and columns its matrices have.
    pub fn size(&self) -> Size
        ensures { result ≡ self.now.state.size }
    {
        Size::try_from(self.state.size).unwrap()
    }

    // Begins anew over a field, with matrices of a size and a bound.
    pub fn start(&mut self, field: F, size: usize, bound: usize) -> Result<(), Refusal>
        ensures { elim result [
          | Ok _ ↦ (start_refusal size bound ≡ None) × ((self.new.field ≡ field) × ((self.new.state.size ≡ size) × ((self.new.bound ≡ bound) × (recorded self.new.state ≡ []))))
          | Err e ↦ (start_refusal size bound ≡ Some e) × (self.new ≡ self.old)
        ] }
    {
        let size = Size::try_from(size)?;
        let bound = Bound::try_from(bound)?;
        *self = begin(field, size, bound);
        Ok(())
    }

    fn phase(&self) -> Phase
        ensures { result ≡ phase_after (arithmetic F.Field self.now.field) self.now.state.size self.now.bound (recorded self.now.state) }
    {
        self.standing().phase
    }

    #[tactic(auto, using(crate::proofs::Taking::recorded_grows))]
    fn accept(&mut self, matrix: &[u32])
        requires running { phase_after (arithmetic F.Field self.old.field) self.old.state.size self.old.bound (recorded self.old.state) ≡ Running }
        requires length { length matrix.now ≡ self.old.state.size * self.old.state.size }
        requires codes { all_codes F.Ring.size matrix.now ≡ true }
        ensures over { self.new.field ≡ self.old.field }
        ensures size { self.new.state.size ≡ self.old.state.size }
        ensures bound { self.new.bound ≡ self.old.bound }
        ensures taken { recorded self.new.state ≡ recorded self.old.state ++ matrix.now }
    {
        let taken = square(self.state.size, matrix);
        advance(self.field, &mut self.state, &taken);
    }

    // Offers a matrix, given row by row: a run that is running takes it.
    pub fn offer(&mut self, matrix: &[u32]) -> Result<(), Refusal>
        ensures { elim result [
          | Ok _ ↦ (offer_refusal F.Ring.size self.old.state.size (phase_after (arithmetic F.Field self.old.field) self.old.state.size self.old.bound (recorded self.old.state)) matrix.now ≡ None) × ((self.new.field ≡ self.old.field) × ((self.new.state.size ≡ self.old.state.size) × ((self.new.bound ≡ self.old.bound) × (recorded self.new.state ≡ recorded self.old.state ++ matrix.now))))
          | Err e ↦ (offer_refusal F.Ring.size self.old.state.size (phase_after (arithmetic F.Field self.old.field) self.old.state.size self.old.bound (recorded self.old.state)) matrix.now ≡ Some e) × (self.new ≡ self.old)
        ] }
    {
        match (self.phase(), self.checked(matrix)) {
            (Phase::Running, Ok(codes)) => {
                self.accept(codes);
                Ok(())
            }
            (Phase::Running, Err(refusal)) => Err(refusal),
            _ => Err(Refusal::NotRunning),
        }
    }

    // Where the run stands.
    pub fn standing(&self) -> Standing
        ensures standing { result ≡ standing_after (arithmetic F.Field self.now.field) self.now.state.size self.now.bound (recorded self.now.state) }
        ensures promise { Promise (arithmetic F.Field self.now.field) self.now.state.size self.now.bound (recorded self.now.state) }
    {
        let generators = self.generators();
        let auxiliaries = self.auxiliaries();
        let total = total_of(generators);
        let greatest = greatest_of(generators);
        let least = least_of(auxiliaries);
        Standing {
            phase: phase_of(self.bound, total, greatest, least),
            taken: self.taken(),
            total,
            greatest,
            least,
            generator_degrees: shown_of(generators),
            auxiliary_degrees: shown_of(auxiliaries),
        }
    }

    // Writes the codes of a generator column, counted from 1, into a place of just their length.
    pub fn column(&self, number: usize, place: &mut [u32]) -> Result<(), Refusal>
        ensures { elim result [
          | Ok _ ↦ (column_refusal self.now.state.size (phase_after (arithmetic F.Field self.now.field) self.now.state.size self.now.bound (recorded self.now.state)) number (columns_after (arithmetic F.Field self.now.field) self.now.state.size (recorded self.now.state)).gen_degree (length place.old) ≡ None) × (place.new ≡ column_after (arithmetic F.Field self.now.field) self.now.state.size (recorded self.now.state) (number - 1))
          | Err e ↦ (column_refusal self.now.state.size (phase_after (arithmetic F.Field self.now.field) self.now.state.size self.now.bound (recorded self.now.state)) number (columns_after (arithmetic F.Field self.now.field) self.now.state.size (recorded self.now.state)).gen_degree (length place.old) ≡ Some e) × (place.new ≡ place.old)
        ] }
    {
        match self.phase() {
            Phase::Short => Err(Refusal::IsShort),
            _ => self.put_column(number, place),
        }
    }

    // Writes so many further matrices, one behind the other, into a place of just their length: each is the only
    // matrix of codes that makes every generator column's discrepancy at its place zero.
    pub fn continuation(&self, count: usize, place: &mut [u32]) -> Result<(), Refusal>
        ensures { elim result [
          | Ok _ ↦ (continuation_refusal self.now.state.size (phase_after (arithmetic F.Field self.now.field) self.now.state.size self.now.bound (recorded self.now.state)) count (length place.old) ≡ None) × ContinuationIs (arithmetic F.Field self.now.field) self.now.state.size (recorded self.now.state) place.new
          | Err e ↦ (continuation_refusal self.now.state.size (phase_after (arithmetic F.Field self.now.field) self.now.state.size self.now.bound (recorded self.now.state)) count (length place.old) ≡ Some e) × (place.new ≡ place.old)
        ] }
    {
        match self.phase() {
            Phase::Settled => self.put_counted(count, place),
            _ => Err(Refusal::NotSettled),
        }
    }
}
