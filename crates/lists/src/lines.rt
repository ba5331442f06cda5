ghost use Rattle.std.specs.Prelude.{◌≡◌, ◌+◌, ◌-◌, ◌≤◌, [], ◌∷◌, length, drop, MatchOption, Some, None, Ok, ◌==◌, slice_index};
ghost use Rattle.std.specs.Iterator.{item_count};
ghost use Rattle.lists.specs.Bytes.{line_end};
ghost use Rattle.lists.specs.Limits.{greatest_length};
ghost use Rattle.lists.specs.Cursor.{left};
ghost use Rattle.lists.specs.FileChecks.{lines_of, lines_handed, opened};

use crate::fault::WholeFault;
use crate::limits::GREATEST_LENGTH;
use crate::line::Line;
use crate::parts::Parts;

// The lines of a file that are left to hand out, and how many were handed out.
#[derive(Clone, Copy)]
pub struct Lines<'a> {
    parts: Parts<'a, b'\n'>,
    number: u32,
    ghost few: { number + length (left line_end parts.rest) ≤ greatest_length },
}

fn ends_line(file: &[u8]) -> bool
    ensures { result ≡ (slice_index file.now (length file.now - 1) == line_end) }
{
    match file {
        [.., last] => *last == b'\n',
        [] => false,
    }
}

// Whether a file is short enough and ended by a line end.
pub(crate) fn check_opened(file: &[u8]) -> Result<(), WholeFault>
    ensures { result ≡ opened file.now }
{
    if file.len() > GREATEST_LENGTH {
        return Err(WholeFault::TooLong);
    }
    if ends_line(file) {
        Ok(())
    } else {
        Err(WholeFault::Unended)
    }
}

fn lines_in(file: &[u8]) -> Parts<'_, b'\n'>
    requires ended { opened file.now ≡ Ok tt }
    ensures all { left line_end result.rest ≡ lines_of file.now }
    ensures few { length (left line_end result.rest) ≤ greatest_length }
{
    Parts::new(&file[0..file.len() - 1])
}

impl<'a> Lines<'a> {
    // All lines of a file; none of a file that is refused as a whole.
    pub fn new(file: &'a [u8]) -> Lines<'a>
        ensures all { left line_end result.parts.rest ≡ lines_handed (opened file.now) file.now }
        ensures number { result.number ≡ 0 }
    {
        let parts = match check_opened(file) {
            Ok(_) => lines_in(file),
            Err(_) => Parts::none(),
        };
        Lines { parts, number: 0 }
    }

    // How many lines were handed out.
    pub(crate) fn number(&self) -> u32
        ensures { result ≡ self.now.number }
    {
        self.number
    }

    // The next line, or none at the end of the file.
    pub fn next_line(&mut self) -> Option<Line<'a>>
        ensures number { elim result [ None ↦ self.new.number ≡ self.old.number | Some l ↦ (l.number ≡ self.old.number + 1) × (self.new.number ≡ self.old.number + 1) ] }
        ensures handed { left line_end self.old.parts.rest ≡ elim result [ None ↦ [] | Some l ↦ l.bytes.now ∷ left line_end self.new.parts.rest ] }
        ensures rest { left line_end self.new.parts.rest ≡ drop 1 (left line_end self.old.parts.rest) }
    {
        self.next()
    }
}

impl<'a> Iterator for Lines<'a> {
    type Item = Line<'a>;

    ghost next_gives = { λ s r t. MatchOption r ((left line_end s.parts.rest ≡ []) × (left line_end t.parts.rest ≡ []) × (t.number ≡ s.number)) (λ l. (left line_end s.parts.rest ≡ l.bytes.now ∷ left line_end t.parts.rest) × (l.number ≡ s.number + 1) × (t.number ≡ s.number + 1)) };

    ghost remaining = { item_count (λ s. left line_end s.parts.rest) };

    fn next(&mut self) -> Option<Line<'a>> {
        let bytes = self.parts.next()?;
        self.number += 1;
        Some(Line {
            bytes,
            number: self.number,
        })
    }
}
