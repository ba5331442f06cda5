ghost use Rattle.std.specs.Prelude.{◌≤◌};

use rings::{Field, Ring};
use std::alloc::AllocError;

// The arithmetic on vectors of a size over a field.
pub struct Lanes<F: Field> {
    pub field: F,
    pub size: usize,
    ghost some: { 1 ≤ size },
    ghost small: { size ≤ 4 },
}

impl<F: Field> Copy for Lanes<F> {}

impl<F: Field> Clone for Lanes<F> {
    fn clone(&self) -> Result<Lanes<F>, AllocError> {
        Ok(*self)
    }
}
