ghost use Rattle.std.specs.Prelude.{◌≡◌, ◌≤◌, length, None};
ghost use Rattle.rings.specs.Arithmetic.{arithmetic};
ghost use Rattle.lists.specs.Places.{written};
ghost use Rattle.verdicts.specs.Entitlements.{Entitles};
ghost use Rattle.verdicts.specs.Refusals.{list_refusal};
ghost use Rattle.verdicts.specs.Verdicts.{verdict_on};
ghost use Rattle.analysis.specs.Limits.{least_answer};
ghost use Rattle.analysis.specs.Answer.{answer_text};

use crate::finding::Finding;
use lists::Header;
use rings::{Field, Ring};
use runs::run::Run;
use verdicts::judge;

// Writes the answer to an accepted list over a field, and answers how many bytes it has.
pub(crate) fn answer_over<F: Field>(
    field: F,
    header: &Header,
    codes: &[u32],
    place: &mut [u8],
) -> usize
    requires accepted { list_refusal F.Ring.size header.now.size header.now.bound codes.now ≡ None }
    requires bytes { F.Ring.size ≤ 256 }
    requires few { length codes.now ≤ 16384 }
    requires room { least_answer ≤ length place.old }
    ensures short { length (answer_text (arithmetic F.Field field) header.now.size header.now.bound codes.now) ≤ least_answer }
    ensures length { result ≡ length (answer_text (arithmetic F.Field field) header.now.size header.now.bound codes.now) }
    ensures place { place.new ≡ written 0 (answer_text (arithmetic F.Field field) header.now.size header.now.bound codes.now) place.old }
    ensures entitles { Entitles (arithmetic F.Field field) header.now.size header.now.bound codes.now (verdict_on (arithmetic F.Field field) header.now.size header.now.bound codes.now) }
{
    let size = header.size.rows();
    let bound = header.bound.degree();
    let mut run = Run::new(field);
    let verdict = judge(field, size, bound, codes, &mut run).unwrap();
    Finding::new(&run, verdict).put(place)
}
