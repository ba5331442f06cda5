ghost use Rattle.std.specs.Prelude.{◌≡◌, Some, None, Ok, Err};
ghost use Rattle.rings.specs.Arithmetic.{arithmetic};
ghost use Rattle.runs.specs.Recorded.{recorded};
ghost use Rattle.verdicts.specs.declared.verdict.Verdict.{Verdict};
ghost use Rattle.verdicts.specs.Entitlements.{Entitles};
ghost use Rattle.verdicts.specs.Refusals.{list_refusal};
ghost use Rattle.verdicts.specs.Taking.{taken_of};
ghost use Rattle.verdicts.specs.Verdicts.{verdict_on};

use crate::evidence::Evidence;
use crate::recording::Recording;
use crate::verdict::Verdict;
use recurrences::Refusal;
use rings::{Field, Ring};
use runs::run::Run;

// Starts a run over a field, offers it the matrices of a list while it is running, compares the rest with its columns, and
// answers the verdict. The list has the codes of its matrices one behind the other, each row by row. The run then stands
// where it stopped, with its degrees and columns.
pub fn judge<F: Field>(
    field: F,
    size: usize,
    bound: usize,
    list: &[u32],
    run: &mut Run<F>,
) -> Result<Verdict, Refusal>
    ensures answer { elim result [
      | Ok v ↦ (list_refusal F.Ring.size size bound list.now ≡ None) × (v ≡ verdict_on (arithmetic F.Field field) size bound list.now)
      | Err e ↦ list_refusal F.Ring.size size bound list.now ≡ Some e
    ] }
    ensures run { elim result [
      | Ok _ ↦ (run.new.field ≡ field) × ((run.new.state.size ≡ size) × ((run.new.bound ≡ bound) × (recorded run.new.state ≡ taken_of (arithmetic F.Field field) size bound list.now)))
      | Err _ ↦ run.new ≡ run.old
    ] }
    ensures entitles { (v : Verdict) → result ≡ Ok v → Entitles (arithmetic F.Field field) size bound list.now v }
{
    // No `?`, since no proof is made of one on a value that borrows and has a ghost field.
    let recording = match Recording::<F>::new(size, bound, list) {
        Ok(recording) => recording,
        Err(refusal) => return Err(refusal),
    };
    recording.drive(field, run);
    Ok(Evidence { run, codes: list }.verdict())
}
