ghost use Rattle.std.specs.Prelude.{◌≤◌};
ghost use Rattle.rings.specs.Arithmetic.{reading};
ghost use Rattle.runs.specs.Ran.{RanIn};
ghost use Rattle.runs.specs.Sound.{Sound};

use crate::tables::State;
use rings::{Field, Ring};

mod ahead;
pub mod calls;
mod checked;
mod column;
mod columns;
mod continuation;

// A run over a field: it takes matrices one after the other and keeps columns that generate all that it took, of
// least degrees. Its type says that its tables are those that the definition of the run gives for the matrices
// taken, and that it was running before each of them.
#[derive(Drop)]
pub struct Run<F: Field> {
    field: F,
    bound: usize,
    state: State,
    ghost bounded: { bound ≤ 64 },
    ghost sound: { Sound (reading F.Ring.size (F.Ring.means field) (F.Field.inverse field)) state },
    ghost ran: { RanIn (reading F.Ring.size (F.Ring.means field) (F.Field.inverse field)) bound state },
}
