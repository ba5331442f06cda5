#![tactic(auto)]

mod analysing;
mod by_letter;
pub mod c_form;
mod finding;
mod limits;
mod over;

pub use analysing::analyse;
pub use limits::LEAST_ANSWER;
