ghost use Rattle.std.specs.Prelude.{◌≡◌, ◌+◌, ◌-◌, ◌≤◌, [], length, drop, slice_index_or};
ghost use Rattle.lists.specs.Bytes.{comma};
ghost use Rattle.lists.specs.Cursor.{left};
ghost use Rattle.lists.specs.Kinds.{kind_of};
ghost use Rattle.lists.specs.LineChecks.{counted};
ghost use Rattle.lists.specs.Split.{first, split};

use crate::fault::{FileFault, LineFault};
use crate::field::Field;
use crate::kind::{Kind, kind_of};
use crate::parts::{Parts, count_marks};

// One line of a file without its end. Lines count from 1.
#[derive(Clone, Copy)]
pub struct Line<'a> {
    pub bytes: &'a [u8],
    pub number: u32,
}

impl<'a> Line<'a> {
    fn fields(self) -> Parts<'a, b','>
        ensures { left comma result.rest ≡ split comma self.entry.bytes.now }
    {
        Parts::new(self.bytes)
    }

    // A field by its number; empty where there is none.
    pub(crate) fn field(self, number: u32) -> Field<'a>
        requires { 1 ≤ number }
        ensures bytes { result.bytes.now ≡ slice_index_or (split comma self.entry.bytes.now) (number - 1) [] }
        ensures line { result.line ≡ self.entry.number }
        ensures number { result.number ≡ number }
    {
        let bytes = self.fields().nth(number as usize - 1).unwrap_or(&[]);
        Field {
            bytes,
            line: self.number,
            number,
        }
    }

    // The fields behind the letter.
    pub(crate) fn values(self) -> Parts<'a, b','>
        ensures { left comma result.rest ≡ drop 1 (split comma self.entry.bytes.now) }
    {
        let mut fields = self.fields();
        let _letter = fields.next();
        fields
    }

    pub(crate) fn kind(self) -> Option<Kind>
        ensures { result ≡ kind_of (first (split comma self.entry.bytes.now)) }
    {
        kind_of(self.field(1).bytes)
    }

    // How many fields stand behind the letter.
    pub(crate) fn count(self) -> usize
        ensures { result + 1 ≡ length (split comma self.entry.bytes.now) }
    {
        count_marks(self.bytes, b',')
    }

    // The fault of a line in which not just so many fields stand behind the letter.
    pub(crate) fn check_count(self, due: usize) -> Result<(), FileFault>
        requires { due ≤ 16 }
        ensures { result ≡ counted (due + 1) self.entry.number (split comma self.entry.bytes.now) }
    {
        let n = self.count();
        if n == due {
            Ok(())
        } else {
            Err(LineFault::Count.at(self.number, n.min(due) as u32 + 2))
        }
    }
}
