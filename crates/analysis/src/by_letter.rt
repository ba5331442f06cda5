ghost use Rattle.std.specs.Prelude.{◌≡◌, ◌≤◌, length, None};
ghost use Rattle.lists.specs.Faults.{found};
ghost use Rattle.lists.specs.Rings.{size_of};
ghost use Rattle.lists.specs.declared.fault.FileFault.TheVariants.{InLine};
ghost use Rattle.lists.specs.declared.fault.LineFault.TheVariants.{Ring};
ghost use Rattle.verdicts.specs.Refusals.{list_refusal};
ghost use Rattle.analysis.specs.Analyse.{answer_length, answer_over, answer_place};
ghost use Rattle.analysis.specs.Fields.{arithmetic_of};
ghost use Rattle.analysis.specs.Laws.{Entitled};
ghost use Rattle.analysis.specs.Limits.{least_answer};

use crate::over::answer_over;
use lists::{FileFault, Found, Header, LineFault, RingLetter};
use rings::{Binary, Bytes, Mod101};

// The refusal of a ring letter that names no field.
pub(crate) fn no_field() -> FileFault
    ensures { result ≡ InLine (found 1 2 Ring) }
{
    FileFault::InLine(Found {
        fault: LineFault::Ring,
        line: 1,
        field: 2,
    })
}

// Writes the answer to an accepted list over the field of its letter, and answers how many bytes it has.
pub(crate) fn answer_by_letter(
    header: &Header,
    codes: &[u32],
    place: &mut [u8],
) -> Result<usize, FileFault>
    requires accepted { list_refusal (size_of header.now.letter) header.now.size header.now.bound codes.now ≡ None }
    requires few { length codes.now ≤ 16384 }
    requires room { least_answer ≤ length place.old }
    ensures answer { result ≡ answer_length (answer_over (arithmetic_of header.now.letter) header.now codes.now) }
    ensures place { place.new ≡ answer_place (answer_over (arithmetic_of header.now.letter) header.now codes.now) place.old }
    ensures entitles { Entitled (arithmetic_of header.now.letter) header.now codes.now }
{
    // Each field is a type of its own, so that each letter has an arm.
    match header.letter {
        RingLetter::B => Ok(answer_over(Binary, header, codes, place)),
        RingLetter::P => Ok(answer_over(Mod101, header, codes, place)),
        RingLetter::Y => Ok(answer_over(Bytes, header, codes, place)),
        RingLetter::W => Err(no_field()),
    }
}
