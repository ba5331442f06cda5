#![tactic(auto)]

pub mod bound;
mod check;
pub mod codes;
pub mod fits;
pub mod limits;
pub mod phase;
pub mod refusal;
pub mod size;
pub mod theorems;
pub mod worked;

pub use bound::Bound;
pub use codes::{are_below, are_codes};
pub use limits::{GREATEST_BOUND, GREATEST_CONTINUATION, GREATEST_SIZE};
pub use phase::{Phase, phase_of};
pub use refusal::Refusal;
pub use size::Size;
pub use theorems::{degrees_are_least_and_final, steps_stay_in_bounds, sum_of_degrees};
