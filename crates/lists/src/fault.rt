ghost use Rattle.std.specs.Prelude.{◌≡◌};
ghost use Rattle.lists.specs.Faults.{found};
ghost use Rattle.lists.specs.Numbering.{number_of, line_of, field_of, write_number};
ghost use Rattle.lists.specs.declared.fault.FileFault.TheVariants.{InRun, InNumber, InLine, Whole};
ghost use Rattle.lists.specs.declared.fault.WriteFault.TheVariants.{OfList, OfText};

use recurrences::Refusal;

// Why a field holds no number.
#[derive(Clone, Copy, PartialEq, Eq, Debug)]
pub enum NumberFault {
    // It is no decimal number below 2^32, or has needless zeros in front.
    NotNumber = 15,
}

// What is wrong with a line, its numbers apart.
#[derive(Clone, Copy, PartialEq, Eq, Debug)]
pub enum LineFault {
    // The first field is not just the letter due.
    Letter = 13,
    // There are too few fields or too many.
    Count = 14,
    // The field is no ring letter.
    Ring = 16,
    // The end line does not tell the count of matrix lines.
    EndCount = 17,
}

impl LineFault {
    pub(crate) fn at(self, line: u32, field: u32) -> FileFault
        ensures { result ≡ InLine (found line field self) }
    {
        FileFault::InLine(Found {
            fault: self,
            line,
            field,
        })
    }
}

// What is wrong with a file as a whole, or with the place for an answer.
#[derive(Clone, Copy, PartialEq, Eq, Debug)]
pub enum WholeFault {
    // The file, or the text of a list, is longer than a file may be.
    TooLong = 10,
    // The place is too short.
    Place = 11,
    // The file is empty, or its last line has no end.
    Unended = 12,
}

// A fault with the line and the field where it was met, both counted from 1.
#[derive(Clone, Copy, PartialEq, Eq, Debug)]
pub struct Found<E> {
    pub fault: E,
    pub line: u32,
    pub field: u32,
}

// Why a file is refused.
#[derive(Clone, Copy, PartialEq, Eq, Debug)]
pub enum FileFault {
    Whole(WholeFault),
    InLine(Found<LineFault>),
    InNumber(Found<NumberFault>),
    InRun(Found<Refusal>),
}

impl FileFault {
    pub fn number(self) -> u32
        ensures { result ≡ number_of self }
    {
        match self {
            FileFault::Whole(e) => e as u32,
            FileFault::InLine(f) => f.fault as u32,
            FileFault::InNumber(f) => f.fault as u32,
            FileFault::InRun(f) => f.fault.number(),
        }
    }

    // The line of the fault, 0 for one of the whole file.
    pub fn line(self) -> u32
        ensures { result ≡ line_of self }
    {
        match self {
            FileFault::Whole(_) => 0,
            FileFault::InLine(f) => f.line,
            FileFault::InNumber(f) => f.line,
            FileFault::InRun(f) => f.line,
        }
    }

    // The field of the fault, 0 for one of the whole file.
    pub fn field(self) -> u32
        ensures { result ≡ field_of self }
    {
        match self {
            FileFault::Whole(_) => 0,
            FileFault::InLine(f) => f.field,
            FileFault::InNumber(f) => f.field,
            FileFault::InRun(f) => f.field,
        }
    }
}

impl From<WholeFault> for FileFault {
    ghost from_gives = { λ e r. r ≡ Whole e };

    fn from(e: WholeFault) -> FileFault {
        FileFault::Whole(e)
    }
}

impl From<Found<LineFault>> for FileFault {
    ghost from_gives = { λ e r. r ≡ InLine e };

    fn from(e: Found<LineFault>) -> FileFault {
        FileFault::InLine(e)
    }
}

impl From<Found<NumberFault>> for FileFault {
    ghost from_gives = { λ e r. r ≡ InNumber e };

    fn from(e: Found<NumberFault>) -> FileFault {
        FileFault::InNumber(e)
    }
}

impl From<Found<Refusal>> for FileFault {
    ghost from_gives = { λ e r. r ≡ InRun e };

    fn from(e: Found<Refusal>) -> FileFault {
        FileFault::InRun(e)
    }
}

// Why a list is not written.
#[derive(Clone, Copy, PartialEq, Eq, Debug)]
pub enum WriteFault {
    // The list itself is refused.
    OfList(Refusal),
    // Its text is too long for a file, or for the place.
    OfText(WholeFault),
}

impl WriteFault {
    pub fn number(self) -> u32
        ensures { result ≡ write_number self }
    {
        match self {
            WriteFault::OfList(e) => e.number(),
            WriteFault::OfText(e) => e as u32,
        }
    }
}

impl From<Refusal> for WriteFault {
    ghost from_gives = { λ e r. r ≡ OfList e };

    fn from(e: Refusal) -> WriteFault {
        WriteFault::OfList(e)
    }
}

impl From<WholeFault> for WriteFault {
    ghost from_gives = { λ e r. r ≡ OfText e };

    fn from(e: WholeFault) -> WriteFault {
        WriteFault::OfText(e)
    }
}
