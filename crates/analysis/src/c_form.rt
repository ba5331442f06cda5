ghost use Rattle.std.specs.Prelude.{◌≡◌, ◌+◌, ◌*◌, ◌^◌, length};
ghost use Rattle.analysis.specs.Analyse.{answer_into, answer_length, answer_place};
ghost use Rattle.analysis.specs.CForm.{packed, as_number};
ghost use Rattle.analysis.specs.Laws.{LawfulAnswer};

use crate::analysing::analyse;
use lists::FileFault;

// A refusal as one number, since a C host takes back no more: number × 2^32 + line × 2^8 + field.
fn packed(fault: FileFault) -> u64
    ensures { result ≡ packed fault }
{
    let number = fault.number() as u64;
    let line = fault.line() as u64;
    let field = fault.field() as u64;
    number * 0x1_0000_0000 + line * 0x100 + field
}

// Analyse with one number for an answer: that of the bytes written, or the refusal.
pub fn analyse_file(file: &[u8], answer: &mut [u8]) -> u64
    ensures answer { result ≡ as_number (answer_length (answer_into (length answer.old) file.now)) }
    ensures place { answer.new ≡ answer_place (answer_into (length answer.old) file.now) answer.old }
{
    match analyse(file, answer) {
        Ok(length) => length as u64,
        Err(fault) => packed(fault),
    }
}
