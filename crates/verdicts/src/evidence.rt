ghost use Rattle.std.specs.Prelude.{◌≡◌, ◌+◌, ◌-◌, ◌*◌, ◌%◌, ◌^◌, ◌<◌, true, length, IfSome};
ghost use Rattle.rings.specs.Arithmetic.{arithmetic, reading};
ghost use Rattle.recurrences.specs.Codes.{all_codes};
ghost use Rattle.recurrences.specs.Fits.{first};
ghost use Rattle.recurrences.specs.declared.phase.Phase.TheVariants.{Settled};
ghost use Rattle.runs.specs.Recorded.{recorded};
ghost use Rattle.runs.specs.Standings.{count_of, phase_after};
ghost use Rattle.verdicts.specs.Entitlements.{Entitles};
ghost use Rattle.verdicts.specs.Misfits.{first_misfit, misfits, moved};
ghost use Rattle.verdicts.specs.Taking.{taken_of};
ghost use Rattle.verdicts.specs.Verdicts.{verdict_on};

use crate::columns::{LONGEST_COLUMN, generator};
use crate::verdict::Verdict;
use recurrences::Phase;
use recurrences::fits::fits;
use rings::{Field, Ring};
use runs::run::Run;

// The place of a failure in a list whose first matrices are left out, counted in the whole list.
fn place_of(failure: Option<(usize, usize)>, left_out: usize) -> Option<usize>
    requires { IfSome failure (λ p. p.0 + left_out < 2 ^ 64) }
    ensures { result ≡ moved left_out failure }
{
    failure.map(|(place, _row)| place + left_out)
}

// A run, and the codes of a list of whole matrices of which it took the first ones, while it was running. The verdict on the list
// follows from the two.
#[derive(Drop)]
pub(crate) struct Evidence<'a, F: Field> {
    pub(crate) run: &'a Run<F>,
    pub(crate) codes: &'a [u32],
    ghost whole: { length codes.now % (run.now.state.size * run.now.state.size) ≡ 0 },
    ghost of_codes: { all_codes F.Ring.size codes.now ≡ true },
    ghost taken: { recorded run.now.state ≡ taken_of (reading F.Ring.size (F.Ring.means run.now.field) (F.Field.inverse run.now.field)) run.now.state.size run.now.bound codes.now },
}

impl<'a, F: Field> Evidence<'a, F> {
    // The first place behind the matrices taken at which a generator column, counted from 0, does not fit the list. The column's
    // fit is checked in the list without so many of its first matrices that the places checked begin behind those taken.
    fn column_misfit(&self, j: usize) -> Option<usize>
        requires column { j < self.now.run.now.state.size }
        requires settled { let r = self.now.run.now in phase_after (arithmetic F.Field r.field) r.state.size r.bound (recorded r.state) ≡ Settled }
        ensures { let r = self.now.run.now in result ≡ first (misfits (arithmetic F.Field r.field) r.state.size (recorded r.state) self.now.codes.now j) (count_of r.state.size (recorded r.state)) (count_of r.state.size self.now.codes.now - count_of r.state.size (recorded r.state)) }
    {
        let size = self.run.size();
        let standing = self.run.standing();
        let degree = standing.generator_degrees[j];
        let left_out = standing.taken - degree;
        let rest = &self.codes[left_out * size.cells()..];
        let mut place = [0; LONGEST_COLUMN];
        let column = generator(self.run, j, &mut place).unwrap();
        let failure = fits(self.run.field(), size.rows(), degree, rest, column).unwrap();
        place_of(failure, left_out)
    }

    // The first place behind the matrices taken at which some generator column does not fit the list.
    fn first_misfit(&self) -> Option<usize>
        requires { let r = self.now.run.now in phase_after (arithmetic F.Field r.field) r.state.size r.bound (recorded r.state) ≡ Settled }
        ensures { let r = self.now.run.now in result ≡ first_misfit (arithmetic F.Field r.field) r.state.size (recorded r.state) self.now.codes.now }
    {
        (0..self.run.size().rows())
            .filter_map(|j| self.column_misfit(j))
            .min()
    }

    pub(crate) fn verdict(&self) -> Verdict
        ensures answer { let r = self.now.run.now in result ≡ verdict_on (arithmetic F.Field r.field) r.state.size r.bound self.now.codes.now }
        ensures entitles { let r = self.now.run.now in Entitles (arithmetic F.Field r.field) r.state.size r.bound self.now.codes.now (verdict_on (arithmetic F.Field r.field) r.state.size r.bound self.now.codes.now) }
    {
        match self.run.standing().phase {
            Phase::Short => Verdict::Insufficient,
            Phase::Running => Verdict::Unsettled,
            Phase::Settled => match self.first_misfit() {
                None => Verdict::Generated,
                Some(place) => Verdict::Misfit(place),
            },
        }
    }
}
