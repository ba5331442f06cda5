ghost use Rattle.std.specs.Prelude.{◌≡◌, ◌+◌, ◌/◌, ◌%◌, ◌<◌, ◌≤◌, length, take, Ok};
ghost use Rattle.lists.specs.Contents.{reading};
ghost use Rattle.lists.specs.Laws.{list_of, LawfulWrite};
ghost use Rattle.lists.specs.LineText.{matrix_texts};
ghost use Rattle.lists.specs.Places.{written};
ghost use Rattle.lists.specs.Rings.{size_of};
ghost use Rattle.lists.specs.Text.{header_of, cells, count_of, text};
ghost use Rattle.lists.specs.Write.{checked_multiple, checked_codes, checked_text, checked_contents, checked_list, written_into, write_place};

use crate::fault::{WholeFault, WriteFault};
use crate::header::Header;
use crate::letter::RingLetter;
use crate::limits::GREATEST_LENGTH;
use crate::line_text::{fields_length, put_line};
use recurrences::codes::are_below;
use recurrences::{Bound, Refusal, Size};

// A list: what its header says, and all its codes in order.
#[derive(Clone, Copy)]
struct List<'a> {
    header: Header,
    codes: &'a [u32],
}

// Writes the lines of matrices of k codes each at a place, and answers the place behind them.
fn put_matrices(place: &mut [u8], at: usize, k: usize, codes: &[u32]) -> usize
    requires some { 0 < k }
    requires room { at + length (matrix_texts k (length codes.now / k) codes.now) ≤ length place.old }
    ensures next { result ≡ at + length (matrix_texts k (length codes.now / k) codes.now) }
    ensures place { place.new ≡ written at (matrix_texts k (length codes.now / k) codes.now) place.old }
{
    let mut next = at;
    for matrix in codes.chunks_exact(k) {
        next = put_line(place, next, b"M", matrix);
    }
    next
}

impl List<'_> {
    // Whether the codes make whole matrices.
    fn check_multiple(&self) -> Result<(), Refusal>
        ensures { result ≡ checked_multiple (cells self.now.header) self.now.codes.now }
    {
        if self.codes.len() % self.header.size.cells() == 0 {
            Ok(())
        } else {
            Err(Refusal::Length)
        }
    }

    fn check_codes(&self) -> Result<(), Refusal>
        ensures { result ≡ checked_codes (size_of self.now.header.letter) self.now.codes.now }
    {
        if are_below(self.header.letter.size(), self.codes) {
            Ok(())
        } else {
            Err(Refusal::Code)
        }
    }

    // How many matrices the codes make.
    fn count(&self) -> usize
        ensures { result ≡ count_of self.now.header self.now.codes.now }
    {
        self.codes.len() / self.header.size.cells()
    }

    // The length of the text, unless it is too long for a file.
    fn text_length(&self) -> Result<usize, WholeFault>
        requires { length self.now.codes.now % cells self.now.header ≡ 0 }
        ensures { result ≡ checked_text (text self.now.header self.now.codes.now) }
    {
        if self.codes.len() > GREATEST_LENGTH {
            return Err(WholeFault::TooLong);
        }
        let count = self.count();
        let start = fields_length(&self.header.numbers()) + 4;
        let end = fields_length(&[count as u32]) + 2;
        let length = start + 2 * count + fields_length(self.codes) + end;
        if length > GREATEST_LENGTH {
            Err(WholeFault::TooLong)
        } else {
            Ok(length)
        }
    }

    // The checks in order. The answer is the length of the text.
    fn checked(&self) -> Result<usize, WriteFault>
        ensures { result ≡ checked_contents self.now.header self.now.codes.now }
    {
        self.check_multiple()?;
        self.check_codes()?;
        Ok(self.text_length()?)
    }

    // Writes the text of a list that was accepted.
    fn put(&self, size: usize, place: &mut [u8])
        requires accepted { Ok size ≡ checked_list self.now.header self.now.codes.now }
        requires room { size ≤ length place.old }
        ensures place { place.new ≡ written 0 (text self.now.header self.now.codes.now) place.old }
        ensures law { reading (take size place.new) ≡ Ok (list_of self.now.header self.now.codes.now) }
    {
        let header = &self.header;
        let start = [b'S', b',', header.letter.byte()];
        let matrices_at = put_line(place, 0, &start, &header.numbers());
        let end_at = put_matrices(place, matrices_at, header.size.cells(), self.codes);
        let _ = put_line(place, end_at, b"E", &[self.count() as u32]);
    }
}

// Writes the text of a list, and answers how many bytes it has.
pub fn write(
    letter: RingLetter,
    size: u32,
    bound: u32,
    codes: &[u32],
    place: &mut [u8],
) -> Result<usize, WriteFault>
    ensures answer { result ≡ written_into (length place.old) (header_of letter size bound) codes.now }
    ensures place { place.new ≡ write_place result (text (header_of letter size bound) codes.now) place.old }
    ensures law { LawfulWrite (header_of letter size bound) codes.now place.new result }
{
    let header = Header {
        letter,
        size: Size::try_from(size as usize)?,
        bound: Bound::try_from(bound as usize)?,
    };
    let list = List { header, codes };
    let length = list.checked()?;
    if place.len() < length {
        return Err(WriteFault::OfText(WholeFault::Place));
    }
    list.put(length, place);
    Ok(length)
}
