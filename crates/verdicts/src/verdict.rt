ghost use Rattle.std.specs.Prelude.{◌≡◌};
ghost use Rattle.verdicts.specs.Verdicts.{letter_of};

// What is said of a whole list. Each verdict has a letter.
#[derive(Clone, Copy, PartialEq, Eq, Debug)]
pub enum Verdict {
    // R: the list ended while the run was running.
    Unsettled,
    // G: the run settled, and its columns fit all matrices behind those that it took.
    Generated,
    // X: the run settled, and this is the first place, counted from 0, at which one of its columns does not fit.
    Misfit(usize),
    // I: the run is short, so that the bound is insufficient.
    Insufficient,
}

impl Verdict {
    pub fn letter(self) -> u8
        ensures { result ≡ letter_of self }
    {
        match self {
            Verdict::Unsettled => b'R',
            Verdict::Generated => b'G',
            Verdict::Misfit(_) => b'X',
            Verdict::Insufficient => b'I',
        }
    }
}
