ghost use Rattle.std.specs.Prelude.{◌≡◌, ℕ, ◌+◌, ◌-◌, ◌*◌, ◌<◌, ◌≤◌, length, min, slice_index, IfSome};
ghost use Rattle.recurrences.specs.Fits.{column_discrepancy, fails, first, first_failure, matrix_count};
ghost use Rattle.recurrences.specs.Limits.{greatest_size};
ghost use Rattle.recurrences.specs.Operations.{numbers};
ghost use Rattle.recurrences.specs.Reading.{column_in, matrices_in};
ghost use Rattle.recurrences.specs.Sums.{sum};

use rings::Ring;

// The products of the numbers of `a` with those of `b`, added up as far as both reach.
fn dot<R: Ring>(ring: R, a: &[u32], b: &[u32]) -> u32
    ensures { result ≡ sum (numbers R.size (R.means ring)) (min (length a.now) (length b.now)) (λ c. (numbers R.size (R.means ring)).mul (slice_index a.now c) (slice_index b.now c)) }
{
    a.iter()
        .zip(b)
        .fold(0, |total, (x, y)| ring.sum(total, ring.product(*x, *y)))
}

// A column of a degree, held against a list of matrices.
#[derive(Drop)]
pub struct Check<'a, R: Ring> {
    pub ring: R,
    pub size: usize,
    pub degree: usize,
    pub list: &'a [u32],
    pub column: &'a [u32],
    ghost some: { 1 ≤ size },
    ghost small: { size ≤ greatest_size },
    ghost whole: { length column.now ≡ size * (degree + 1) },
}

impl<'a, R: Ring> Check<'a, R> {
    // Entry `row` of the matrix k places before `place` times coefficient k.
    fn term(&self, place: usize, row: usize, k: usize) -> u32
        requires place_inside { (place + 1) * (self.now.size * self.now.size) ≤ length self.now.list.now }
        requires row_inside { row < self.now.size }
        requires before { k ≤ place }
        requires coefficient { k ≤ self.now.degree }
        ensures { result ≡ sum (numbers R.size (R.means self.now.ring)) self.now.size (λ c. (numbers R.size (R.means self.now.ring)).mul (matrices_in self.now.size self.now.size self.now.list.now (place - k) row c) (column_in self.now.size self.now.column.now k c)) }
    {
        let rows = self.size;
        let i = ((place - k) * rows + row) * rows;
        let j = k * rows;
        dot(
            self.ring,
            &self.list[i..i + rows],
            &self.column[j..j + rows],
        )
    }

    // Entry `row` of the column's discrepancy at `place`.
    fn entry(&self, place: usize, row: usize) -> u32
        requires place_inside { (place + 1) * (self.now.size * self.now.size) ≤ length self.now.list.now }
        requires row_inside { row < self.now.size }
        ensures { result ≡ column_discrepancy R.size (R.means self.now.ring) self.now.size self.now.degree self.now.list.now self.now.column.now place row }
    {
        // As a fold the loop took a third more instructions where a matrix is one bit and the degree is 64.
        let mut total = 0;
        for k in 0..place.min(self.degree) + 1 {
            total = self.ring.sum(total, self.term(place, row, k));
        }
        total
    }

    // The first row, from 0, at which the column fails at `place`.
    fn failing_row(&self, place: usize) -> Option<usize>
        requires place_inside { (place + 1) * (self.now.size * self.now.size) ≤ length self.now.list.now }
        ensures row { result ≡ first (fails R.size (R.means self.now.ring) self.now.size self.now.degree self.now.list.now self.now.column.now place) 0 self.now.size }
        ensures below { IfSome result (λ k. k < self.now.size) }
    {
        (0..self.size).find(|row| self.entry(place, *row) != 0)
    }

    // The first place from the degree on at which the column fails, from 0, and the first row there, from 1.
    // It stays part of `fits`, whose tests show the compiler how short the loops are: apart, a check took up to twice as long,
    // and so it did with find_map, which the compiler keeps apart.
    #[inline(always)]
    #[tactic(auto, using(crate::proofs::FirstFailure::failure_here))]
    pub fn failure(&self) -> Option<(usize, usize)>
        ensures { result ≡ first_failure R.size (R.means self.now.ring) self.now.size self.now.degree self.now.list.now self.now.column.now self.now.degree (matrix_count R.size (R.means self.now.ring) self.now.size self.now.degree self.now.list.now self.now.column.now - self.now.degree) }
    {
        let count = self.list.len() / (self.size * self.size);
        for place in self.degree..count {
            if let Some(row) = self.failing_row(place) {
                return Some((place, row + 1));
            }
        }
        None
    }
}
