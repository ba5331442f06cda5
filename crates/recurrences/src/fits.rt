ghost use Rattle.std.specs.Prelude.{◌≡◌, Some, Ok, Err};
ghost use Rattle.recurrences.specs.Fits.{Told, fits_answer, fits_refusal};

use crate::bound::Bound;
use crate::check::Check;
use crate::codes::are_codes;
use crate::limits::GREATEST_SIZE;
use crate::refusal::Refusal;
use rings::Ring;

// The answer alone, of which `fits` says what it tells. It is part of `fits`, as the check is part of it.
#[inline(always)]
fn answer<R: Ring>(
    ring: R,
    size: usize,
    degree: usize,
    list: &[u32],
    column: &[u32],
) -> Result<Option<(usize, usize)>, Refusal>
    ensures { result ≡ fits_answer R.size (R.means ring) size degree list.now column.now }
{
    // With Size::try_from the compiler lost sight of how small the size is, and a check of bits took up to three quarters longer.
    if size < 1 || size > GREATEST_SIZE {
        return Err(Refusal::Size);
    }
    let degree = Bound::try_from(degree)?.degree();
    if column.len() != size * (degree + 1) || list.len() % (size * size) != 0 {
        return Err(Refusal::Length);
    }
    if !are_codes::<R>(list) || !are_codes::<R>(column) {
        return Err(Refusal::Code);
    }
    let check = Check {
        ring,
        size,
        degree,
        list,
        column,
    };
    Ok(check.failure())
}

// Whether a column f_0 … f_d of nominal degree d fits a list of matrices of size N, over any ring. Answers none
// where it does, and otherwise the first failing place, from 0, and the first failing row there, from 1.
pub fn fits<R: Ring>(
    ring: R,
    size: usize,
    degree: usize,
    list: &[u32],
    column: &[u32],
) -> Result<Option<(usize, usize)>, Refusal>
    ensures answer { result ≡ fits_answer R.size (R.means ring) size degree list.now column.now }
    ensures told { elim result [ Ok a ↦ Told R.size (R.means ring) size degree list.now column.now a | Err e ↦ fits_refusal R.size size degree list.now column.now ≡ Some e ] }
{
    answer(ring, size, degree, list, column)
}
