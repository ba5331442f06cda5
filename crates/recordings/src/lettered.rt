use rings::{Binary, Bytes, Mod101, Ring, Words};

// A ring, and the letter that its lines begin with.
pub trait Lettered: Ring {
    const LETTER: char;
}

impl Lettered for Binary {
    const LETTER: char = 'B';
}

impl Lettered for Mod101 {
    const LETTER: char = 'P';
}

impl Lettered for Bytes {
    const LETTER: char = 'Y';
}

impl Lettered for Words {
    const LETTER: char = 'W';
}
