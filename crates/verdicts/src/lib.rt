#![tactic(auto)]

mod columns;
mod evidence;
mod judging;
mod recording;
pub mod verdict;

pub use columns::{LONGEST_COLUMN, generator};
pub use judging::judge;
pub use verdict::Verdict;
