use crate::values::Values;

// How long the words of a call or an answer may be.
pub const ROOM: usize = 96;

// A call or an answer: its words, with a sign in the place of each value, and its values. The sign of a number is #, of
// the letter of a ring @, of a list [] and of a text "".
#[derive(Clone, Copy)]
pub struct Said {
    pub values: Values,
    pub words: [u8; ROOM],
    pub length: usize,
}

impl Said {
    // The words; of what cannot be read, words that nothing has.
    pub fn words(&self) -> &[u8] {
        if self.length < ROOM {
            &self.words[0..self.length]
        } else {
            b"?"
        }
    }
}
