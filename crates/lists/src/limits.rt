// The greatest length of a file, in bytes.
pub const GREATEST_LENGTH: usize = 32768;

// The least place for codes that is lent to a reader.
pub const LEAST_PLACE: usize = 16384;
