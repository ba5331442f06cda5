ghost use Rattle.std.specs.Prelude.{◌≡◌};
ghost use Rattle.lists.specs.Faults.{located};
ghost use Rattle.lists.specs.LineChecks.{number_at, ring_at, size_at, bound_at, code_at};
ghost use Rattle.lists.specs.Rings.{letter_of};

use crate::fault::{FileFault, Found, LineFault};
use crate::letter::{RingLetter, letter_of};
use crate::number::read_number;
use recurrences::{Bound, Refusal, Size};

// A field, the number of its line, and its own number in the line. Both count from 1.
#[derive(Clone, Copy)]
pub(crate) struct Field<'a> {
    pub(crate) bytes: &'a [u8],
    pub(crate) line: u32,
    pub(crate) number: u32,
}

impl Field<'_> {
    // A result whose fault, if any, is one of this field.
    fn located<T, E>(self, r: Result<T, E>) -> Result<T, Found<E>>
        ensures { result ≡ located self.entry.line self.entry.number r }
    {
        let (line, field) = (self.line, self.number);
        r.map_err(|fault| Found { fault, line, field })
    }

    pub(crate) fn value(self) -> Result<u32, FileFault>
        ensures { result ≡ number_at self.entry.line self.entry.number self.entry.bytes.now }
    {
        Ok(self.located(read_number(self.bytes))?)
    }

    pub(crate) fn ring(self) -> Result<RingLetter, FileFault>
        ensures { result ≡ ring_at self.entry.line self.entry.number (letter_of self.entry.bytes.now) }
    {
        Ok(self.located(letter_of(self.bytes).ok_or(LineFault::Ring))?)
    }

    pub(crate) fn size(self) -> Result<Size, FileFault>
        ensures { result ≡ size_at self.entry.line self.entry.number self.entry.bytes.now }
    {
        let rows = self.value()? as usize;
        Ok(self.located(Size::try_from(rows))?)
    }

    pub(crate) fn bound(self) -> Result<Bound, FileFault>
        ensures { result ≡ bound_at self.entry.line self.entry.number self.entry.bytes.now }
    {
        let degree = self.value()? as usize;
        Ok(self.located(Bound::try_from(degree))?)
    }

    // The code of the ring of size q.
    pub(crate) fn code(self, q: u64) -> Result<u32, FileFault>
        ensures { result ≡ code_at q self.entry.line self.entry.number self.entry.bytes.now }
    {
        let code = self.value()?;
        let checked = if u64::from(code) < q {
            Ok(code)
        } else {
            Err(Refusal::Code)
        };
        Ok(self.located(checked)?)
    }
}
