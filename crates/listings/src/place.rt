// A place is filled with one of these before a call, so that it shows what was written. The calls take places of plain
// numbers, so no Option can mark what was not.
pub const UNTOUCHED_CODE: u32 = 77;

pub const UNTOUCHED_BYTE: u8 = 7;
