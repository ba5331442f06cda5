use crate::tables::Vector;

// An equation for a matrix: the vector that it is applied to, and the values that it gives.
#[derive(Clone, Copy)]
pub struct Equation {
    pub vector: Vector,
    pub values: Vector,
}

impl Equation {
    pub const ZERO: Equation = Equation {
        vector: Vector::ZERO,
        values: Vector::ZERO,
    };
}
