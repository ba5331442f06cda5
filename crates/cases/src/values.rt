ghost use Rattle.std.specs.Prelude.{◌≡◌, ◌-◌, ◌≤◌, true, take, drop};

// How many codes and bytes there is room for.
pub const CODES: usize = 16400;

pub const BYTES: usize = 32784;

// The values of a call or of an answer, in the order of its words. Among the numbers a letter stands by its byte, and a
// list or a text by where its codes or bytes end; they stand behind those of the ones before. A place is lent out of the
// codes or the bytes of an answer, and where nothing was written they hold what `NONE` holds: so two answers are the same
// only if nothing was written behind a list or a text, or by a call that was refused.
#[derive(Clone, Copy)]
pub struct Values {
    pub numbers: [usize; 16],
    pub codes: [u32; CODES],
    pub bytes: [u8; BYTES],
}

pub const NONE: Values = Values {
    numbers: [0; 16],
    codes: [4294967295; CODES],
    bytes: [7; BYTES],
};

impl Values {
    pub fn list(&self, from: usize, to: usize) -> &[u32]
        ensures { from ≤ to → to ≤ 16400 → result.now ≡ take (to - from) (drop from self.now.codes) }
    {
        if from <= to && to <= CODES {
            &self.codes[from..to]
        } else {
            &[]
        }
    }

    pub fn text(&self, to: usize) -> &[u8]
        ensures { to ≤ 32784 → result.now ≡ take to self.now.bytes }
    {
        if to <= BYTES { &self.bytes[0..to] } else { &[] }
    }

    pub fn same(&self, other: &Values) -> bool
        ensures numbers { result ≡ true → self.now.numbers ≡ other.now.numbers }
        ensures codes { result ≡ true → self.now.codes ≡ other.now.codes }
        ensures bytes { result ≡ true → self.now.bytes ≡ other.now.bytes }
    {
        if self.numbers == other.numbers {
            if self.codes == other.codes {
                return self.bytes == other.bytes;
            }
        }
        false
    }
}
