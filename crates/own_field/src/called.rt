use crate::mod7::Mod7;
use cases::Tally;
use recurrences::Refusal;
use rings::{Field, Ring};
use runs::run::Run;
use std::io;

// What the machine gives.
const MATRICES: &[[u32; 4]] = &[[6, 5, 2, 3], [4, 1, 0, 4], [3, 5, 0, 0], [0, 6, 1, 6]];

// A run of size 2 and bound 3 that was offered what the machine gives until it is settled.
fn settled() -> Result<Run<Mod7>, Refusal> {
    let mut run = Run::new(Mod7);
    run.start(Mod7, 2, 3)?;
    for matrix in MATRICES {
        run.offer(matrix)?;
    }
    Ok(run)
}

// Whether a call takes a place for just the codes due, and writes them.
fn writes<const N: usize, C: FnOnce(&mut [u32]) -> Result<(), Refusal>>(
    call: C,
    due: [u32; N],
) -> bool
    requires { C.IsAlwaysCallable call }
{
    let mut place = [0; N];
    call(&mut place).is_ok() && place == due
}

// The columns of the settled run, and the three matrices that the machine gives next.
pub fn called(tally: &mut Tally<'_>) -> io::Result<()> {
    let Ok(run) = settled() else {
        return tally.tell("the run is refused", false);
    };
    let first = writes(|place| run.column(1, place), [1, 0, 0, 1, 1, 5]);
    tally.tell("column 1", first)?;
    let second = writes(|place| run.column(2, place), [1, 1, 5, 0]);
    tally.tell("column 2", second)?;
    let next = writes(
        |place| run.continuation(3, place),
        [1, 6, 1, 1, 6, 3, 3, 6, 1, 4, 2, 4],
    );
    tally.tell("continuation of 3", next)
}
