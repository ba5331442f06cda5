ghost use Rattle.std.specs.Prelude.{◌≡◌, ◌*◌, ◌≤◌, ◌≢◌, true, false, length, take, Some, Ok};
ghost use Rattle.lists.specs.Contents.{reading};
ghost use Rattle.lists.specs.Faults.{found};
ghost use Rattle.lists.specs.FileChecks.{letter_in, lines_handed, lines_of, opened};
ghost use Rattle.lists.specs.FirstFault.{FirstFault};
ghost use Rattle.lists.specs.declared.fault.FileFault.TheVariants.{InLine};
ghost use Rattle.lists.specs.declared.fault.LineFault.TheVariants.{Ring};
ghost use Rattle.lists.specs.declared.letter.RingLetter.TheVariants.{W};
ghost use Rattle.lists.specs.Laws.{LawfulRead};
ghost use Rattle.lists.specs.Limits.{greatest_length};
ghost use Rattle.lists.specs.Read.{read_answer};
ghost use Rattle.analysis.specs.Analyse.{answer_into, answer_length, answer_place, answer_to, answer_to_list, names_words};
ghost use Rattle.analysis.specs.Laws.{LawfulAnswer};
ghost use Rattle.analysis.specs.Limits.{least_answer};

use crate::by_letter::{answer_by_letter, no_field};
use crate::limits::LEAST_ANSWER;
use lists::{FileFault, GREATEST_LENGTH, LEAST_PLACE, RingLetter, WholeFault, header_letter, read};

// The answer to a file whose header names no words that wrap, in a place that is long enough.
fn answer_list(file: &[u8], answer: &mut [u8]) -> Result<usize, FileFault>
    requires short { length file.now ≤ greatest_length }
    requires room { least_answer ≤ length answer.old }
    requires other { letter_in (lines_handed (opened file.now) file.now) ≢ Some W }
    ensures answer { result ≡ answer_length (answer_to file.now) }
    ensures place { answer.new ≡ answer_place (answer_to file.now) answer.old }
    ensures law { LawfulAnswer file.now answer.new result }
{
    let mut place = [0; LEAST_PLACE];
    let listing = read(file, &mut place)?;
    let header = &listing.header;
    let codes = &place[..listing.count as usize * header.size.cells()];
    answer_by_letter(header, codes, answer)
}

// The answer to a file, in a place that is long enough.
#[tactic(auto, using(crate::proofs::ReadLists::words_lawful))]
fn answer_file(file: &[u8], answer: &mut [u8]) -> Result<usize, FileFault>
    requires short { length file.now ≤ greatest_length }
    requires room { least_answer ≤ length answer.old }
    ensures answer { result ≡ answer_length (answer_to file.now) }
    ensures place { answer.new ≡ answer_place (answer_to file.now) answer.old }
    ensures law { LawfulAnswer file.now answer.new result }
{
    if header_letter(file) == Some(RingLetter::W) {
        return Err(no_field());
    }
    answer_list(file, answer)
}

// Reads a file, puts its matrices through a run, and writes what was found. Answers how many bytes were written.
pub fn analyse(file: &[u8], answer: &mut [u8]) -> Result<usize, FileFault>
    ensures answer { result ≡ answer_length (answer_into (length answer.old) file.now) }
    ensures place { answer.new ≡ answer_place (answer_into (length answer.old) file.now) answer.old }
    ensures law { LawfulAnswer file.now answer.new result }
{
    if file.len() > GREATEST_LENGTH {
        return Err(WholeFault::TooLong.into());
    }
    if answer.len() < LEAST_ANSWER {
        return Err(WholeFault::Place.into());
    }
    answer_file(file, answer)
}
