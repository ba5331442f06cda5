#![tactic(auto)]

mod calls;
mod error;
mod parts;
mod place;
mod reader;
mod said;
mod short_forms;
mod tally;
mod trials;
mod values;

pub use calls::{Calls, Says};
pub use error::CallError;
pub use parts::Part;
pub use place::{holds, put, written};
pub use said::Said;
pub use tally::Tally;
pub use trials::try_cases;
pub use values::{BYTES, CODES, NONE, Values};
