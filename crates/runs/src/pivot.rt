ghost use Rattle.std.specs.Prelude.{◌≡◌, ◌<◌, ◌≤◌, true, false, if◌then◌else◌, nat_eq};
ghost use Rattle.runs.specs.Candidates.{Within, better_of, best_of, Found};
ghost use Rattle.runs.specs.Views.{degree_at};

use crate::tables::Column;
use recurrences::GREATEST_SIZE;

// Of the best so far and column j, whose entry is given, the one of smaller degree; a tie goes to the former.
fn better(
    best: Option<usize>,
    j: usize,
    entry: u32,
    columns: &[Column; GREATEST_SIZE],
) -> Option<usize>
    requires best { Within 4 best }
    requires column { j < 4 }
    ensures { result ≡ (if nat_eq entry 0 then best else better_of (degree_at columns.now) j best) }
{
    if entry == 0 {
        return best;
    }
    match best {
        None => Some(j),
        Some(b) => {
            if columns[j].degree < columns[b].degree {
                Some(j)
            } else {
                Some(b)
            }
        }
    }
}

// Of the columns whose entry is not 0 the one of least degree, and of several such the lowest.
pub fn best(
    size: usize,
    entries: &[u32; GREATEST_SIZE],
    columns: &[Column; GREATEST_SIZE],
) -> Option<usize>
    requires { size ≤ 4 }
    ensures value { result ≡ best_of entries.now (degree_at columns.now) size }
    ensures found { Found entries.now size result }
{
    let mut best = None;
    for (j, entry) in entries[..size].iter().enumerate() {
        best = better(best, j, *entry, columns);
    }
    best
}

// Whether the auxiliary column is the pivot and not the best candidate, from their degrees: a tie goes to it.
pub fn auxiliary_wins(aux_degree: usize, degree: usize) -> bool
    ensures wins { result ≡ true → aux_degree ≤ degree }
    ensures loses { result ≡ false → degree < aux_degree }
{
    aux_degree <= degree
}
