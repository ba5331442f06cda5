ghost use Rattle.std.specs.Prelude.{◌≡◌, ℕ, ◌<◌, ◌≤◌, length};
ghost use Rattle.recurrences.specs.Degrees.{total, greatest, least};
ghost use Rattle.runs.specs.Standings.{shown};
ghost use Rattle.runs.specs.Views.{degree_at};

use crate::tables::Column;
use recurrences::GREATEST_SIZE;
use std::array;

// The total of the degrees of columns.
pub fn total_of(columns: &[Column]) -> usize
    requires few { length columns.now ≤ 4 }
    requires low { (j : ℕ) → j < length columns.now → degree_at columns.now j ≤ 128 }
    ensures { result ≡ total (length columns.now) (degree_at columns.now) }
{
    columns.iter().map(|column| column.degree).sum()
}

// The greatest of them, and 0 of no columns.
pub fn greatest_of(columns: &[Column]) -> usize
    ensures { result ≡ greatest (length columns.now) (degree_at columns.now) }
{
    columns
        .iter()
        .map(|column| column.degree)
        .max()
        .unwrap_or(0)
}

// The least of them, and 0 of no columns.
pub fn least_of(columns: &[Column]) -> usize
    ensures { result ≡ least (length columns.now) (degree_at columns.now) }
{
    columns
        .iter()
        .map(|column| column.degree)
        .min()
        .unwrap_or(0)
}

// The degrees of the columns, and 0 behind them.
pub fn shown_of(columns: &[Column]) -> [usize; GREATEST_SIZE]
    ensures { result ≡ shown (length columns.now) (degree_at columns.now) }
{
    array::from_fn(|j| columns.get(j).map_or(0, |column| column.degree))
}
