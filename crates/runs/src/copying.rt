ghost use Rattle.std.specs.Prelude.{◌≡◌, ◌*◌, ◌/◌, ◌%◌, ◌<◌, ◌≤◌, length};
ghost use Rattle.recurrences.specs.Standing.{listed};
ghost use Rattle.runs.specs.Views.{column_of};

use crate::tables::Column;

// Of matrices of a size, the coefficients' codes, one coefficient behind the other.
impl Column {
    fn code(&self, size: usize, i: usize) -> u32
        requires one { 0 < size }
        requires size { size ≤ 4 }
        requires within { i < size * 130 }
        ensures { result ≡ column_of size self.now (i / size) (i % size) }
    {
        self.coefficients[i / size].entries[i % size]
    }

    // Writes as many of them as the place holds.
    pub fn write(&self, size: usize, place: &mut [u32])
        requires one { 0 < size }
        requires size { size ≤ 4 }
        requires within { length place.old ≤ size * 130 }
        ensures { place.new ≡ listed (length place.old) (λ i. column_of size self.now (i / size) (i % size)) }
    {
        for (i, code) in place.iter_mut().enumerate() {
            *code = self.code(size, i);
        }
    }
}
