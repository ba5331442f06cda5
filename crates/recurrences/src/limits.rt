// The greatest size of a matrix.
pub const GREATEST_SIZE: usize = 4;

// The greatest bound of a run, and the greatest degree of a column.
pub const GREATEST_BOUND: usize = 64;

// The most matrices that a run continues by in one call.
pub const GREATEST_CONTINUATION: usize = 64;
