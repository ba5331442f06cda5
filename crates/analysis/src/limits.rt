// The least place for an answer, in bytes. Every answer goes into it.
pub const LEAST_ANSWER: usize = 2048;
