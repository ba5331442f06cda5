ghost use Rattle.std.specs.Prelude.{◌≡◌, ◌+◌, ◌<◌, ◌≤◌, ◌≢◌, None, Some, Ok, Err};
ghost use Rattle.rings.specs.Arithmetic.{arithmetic};
ghost use Rattle.recurrences.specs.declared.phase.Phase.TheVariants.{Short};
ghost use Rattle.runs.specs.Recorded.{recorded};
ghost use Rattle.runs.specs.Refusals.{column_refusal};
ghost use Rattle.runs.specs.Standings.{column_after, columns_after, phase_after, standing_after};
ghost use Rattle.verdicts.specs.Refusals.{generator_refusal};

use recurrences::{GREATEST_BOUND, GREATEST_SIZE, Phase, Refusal};
use rings::{Field, Ring};
use runs::run::Run;
use runs::standing::Standing;

// A generator column of a run that is not short has at most 4 × (64 + 1) codes.
pub const LONGEST_COLUMN: usize = GREATEST_SIZE * (GREATEST_BOUND + 1);

// How many codes generator column j has, counted from 0, of a run of a size that stands so and is not short. The size is handed
// on: taken from the run once more, it kept the compiler from seeing how short a column is, and a fit check of bits took up to four
// fifths longer.
fn length_of<F: Field>(run: &Run<F>, size: usize, standing: &Standing, j: usize) -> usize
    requires size { size ≡ run.now.state.size }
    requires stands { standing.now ≡ standing_after (arithmetic F.Field run.now.field) run.now.state.size run.now.bound (recorded run.now.state) }
    requires told { standing.now.phase ≢ Short }
    requires column { j < run.now.state.size }
    ensures within { result ≤ 260 }
    ensures given { column_refusal run.now.state.size (phase_after (arithmetic F.Field run.now.field) run.now.state.size run.now.bound (recorded run.now.state)) (j + 1) (columns_after (arithmetic F.Field run.now.field) run.now.state.size (recorded run.now.state)).gen_degree result ≡ None }
{
    size * (standing.generator_degrees[j] + 1)
}

// The codes of generator column j, counted from 0, in front of a place.
pub fn generator<'a, F: Field>(
    run: &Run<F>,
    j: usize,
    place: &'a mut [u32; LONGEST_COLUMN],
) -> Result<&'a [u32], Refusal>
    ensures { elim result [
      | Ok codes ↦ (generator_refusal run.now.state.size (phase_after (arithmetic F.Field run.now.field) run.now.state.size run.now.bound (recorded run.now.state)) j ≡ None) × (codes.now ≡ column_after (arithmetic F.Field run.now.field) run.now.state.size (recorded run.now.state) j)
      | Err e ↦ generator_refusal run.now.state.size (phase_after (arithmetic F.Field run.now.field) run.now.state.size run.now.bound (recorded run.now.state)) j ≡ Some e
    ] }
{
    let size = run.size().rows();
    let standing = run.standing();
    if standing.phase == Phase::Short {
        return Err(Refusal::IsShort);
    }
    if j >= size {
        return Err(Refusal::ColumnNumber);
    }
    let codes = &mut place[..length_of(run, size, &standing, j)];
    run.column(j + 1, codes)?;
    Ok(codes)
}
