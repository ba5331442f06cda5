use recurrences::{GREATEST_BOUND, GREATEST_SIZE};
use rings::Field;
use runs::run::Run;
use runs::standing::Standing;

// The length of the longest column.
const LONGEST: usize = (GREATEST_BOUND + 1) * GREATEST_SIZE;

// All that a run shows: its standing, and its generator columns.
#[derive(Clone, Copy, PartialEq, Eq)]
pub struct Shown {
    standing: Standing,
    columns: [[u32; LONGEST]; GREATEST_SIZE],
}

// Each column is asked for at every size; it is handed out at the run's own.
pub fn look_at<F: Field>(run: &Run<F>) -> Shown {
    let standing = run.standing();
    let mut columns = [[0; LONGEST]; GREATEST_SIZE];
    let degrees = standing.generator_degrees;
    for (i, (column, degree)) in columns.iter_mut().zip(degrees.iter()).enumerate() {
        for size in 1..=GREATEST_SIZE {
            let length = degree.saturating_add(1).saturating_mul(size);
            if let Some((place, _)) = column.split_at_mut_checked(length) {
                let _ = run.column(i + 1, place);
            }
        }
    }
    Shown { standing, columns }
}
