#![tactic(auto)]

ghost use Rattle.std.specs.Prelude.{◌≡◌, length};
ghost use Rattle.analysis.specs.Analyse.{answer_into, answer_length, answer_place};
ghost use Rattle.analysis.specs.CForm.{as_number};

// Analyse for a host that links it: answers the number of bytes written, or the refusal as one number.
#[unsafe(no_mangle)]
pub extern "C" fn analyse_file(file: &[u8], answer: &mut [u8]) -> u64
    ensures answer { result ≡ as_number (answer_length (answer_into (length answer.old) file.now)) }
    ensures place { answer.new ≡ answer_place (answer_into (length answer.old) file.now) answer.old }
{
    analysis::c_form::analyse_file(file, answer)
}
