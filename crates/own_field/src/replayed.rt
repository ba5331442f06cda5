use crate::mod7::Mod7;
use crate::scripts::{CALLS, SCRIPT};
use cases::Tally;
use recurrences::Refusal;
use rings::{Field, Ring};
use runs::replay::replay;
use runs::script::Answer;
use std::{fmt, io};

// What a call answered, as it is told.
#[derive(Drop)]
struct Told(Answer);

impl fmt::Display for Told {
    fn fmt<W: fmt::Write>(&self, f: &mut fmt::Formatter<W>) -> fmt::Result {
        match self.0 {
            Answer::Done => f.write_str("done"),
            Answer::Stands(_) => f.write_str("stands"),
            Answer::Refused(refusal) => {
                let number = refusal.number();
                write!(f, "refused with {number}")
            }
        }
    }
}

// Replays the script into places for answers.
fn replay_into(size: usize, bound: usize, answers: &mut [Answer]) -> Result<(), Refusal> {
    replay(Mod7, size, bound, &SCRIPT.map(|(call, _)| call), answers)
}

// What each call of the script answers.
pub fn replayed(tally: &mut Tally<'_>) -> io::Result<()> {
    let mut answers = [Answer::Done; CALLS];
    let came = replay_into(2, 3, &mut answers);
    tally.tell("the script is replayed", came.is_ok())?;
    for (i, (answer, (_, due))) in answers.iter().zip(&SCRIPT).enumerate() {
        let told = Told(*answer);
        tally.tell(format_args!("answer {i}: {told}"), answer == due)?;
    }
    Ok(())
}

// Replays that are refused.
pub fn refused(tally: &mut Tally<'_>) -> io::Result<()> {
    let mut answers = [Answer::Done; CALLS];
    let size = replay_into(5, 3, &mut answers);
    tally.tell("a size of 5 is refused", size == Err(Refusal::Size))?;
    let bound = replay_into(2, 65, &mut answers);
    tally.tell("a bound of 65 is refused", bound == Err(Refusal::Bound))?;
    let length = replay_into(2, 3, &mut answers[0..CALLS - 1]);
    tally.tell(
        "a list one answer short is refused",
        length == Err(Refusal::Length),
    )
}
