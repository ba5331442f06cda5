#![tactic(auto)]

mod body;
mod end_line;
mod fault;
mod field;
mod header;
mod kind;
mod laws;
mod letter;
mod limits;
mod line;
mod line_text;
mod line_writer;
mod lines;
mod matrix_line;
mod number;
mod parts;
mod put;
mod reader;
mod start_line;
mod writer;

pub use fault::{FileFault, Found, LineFault, NumberFault, WholeFault, WriteFault};
pub use header::{Header, Listing};
pub use laws::files_and_lists_agree;
pub use letter::RingLetter;
pub use limits::{GREATEST_LENGTH, LEAST_PLACE};
pub use line::Line;
pub use line_writer::write_line;
pub use lines::Lines;
pub use reader::read;
pub use start_line::header_letter;
pub use writer::write;
