ghost use Rattle.std.specs.Prelude.{◌≡◌, ◌<◌, ◌≤◌, []};
ghost use Rattle.rings.specs.Arithmetic.{arithmetic};
ghost use Rattle.runs.specs.Recorded.{recorded};
ghost use Rattle.runs.specs.Sound.{Sound};
ghost use Rattle.runs.specs.Starts.{zero_column, unit_column, started};

use crate::tables::{COEFFICIENTS, Column, Columns, GREATEST_COUNT, Matrix, State, Vector};
use recurrences::GREATEST_SIZE;
use rings::{Field, Ring};

// The zero column, of degree 1.
fn zero() -> Column
    ensures { result ≡ zero_column }
{
    Column {
        degree: 1,
        coefficients: [Vector {
            entries: [0; GREATEST_SIZE],
        }; COEFFICIENTS],
    }
}

// The column of degree 0 whose constant coefficient is unit vector j.
fn unit(j: usize) -> Column
    requires { j < 4 }
    ensures { result ≡ unit_column j }
{
    let mut column = zero();
    column.degree = 0;
    column.coefficients[0].entries[j] = 1;
    column
}

fn started_tables(size: usize) -> State
    ensures { result ≡ started size }
{
    let row = Vector {
        entries: [0; GREATEST_SIZE],
    };
    let matrix = Matrix {
        rows: [row; GREATEST_SIZE],
    };
    let columns = Columns {
        gens: [unit(0), unit(1), unit(2), unit(3)],
        auxs: [zero(); GREATEST_SIZE],
    };
    State {
        size,
        count: 0,
        matrices: [matrix; GREATEST_COUNT],
        columns,
    }
}

// A run for matrices of a size that has taken nothing.
pub fn start<F: Field>(field: F, size: usize) -> State
    requires some { 1 ≤ size }
    requires small { size ≤ 4 }
    ensures state { result ≡ started size }
    ensures sound { Sound (arithmetic F.Field field) result }
    ensures taken { recorded result ≡ [] }
{
    started_tables(size)
}
