use cases::{Says, Values, put};
use lists::{FileFault, Listing, WriteFault};

// What a call answered.
#[derive(Clone, Copy, PartialEq, Eq, Debug)]
pub enum Answer {
    // A list, whose codes stand at the front of what came.
    List(Listing),
    RefusedFile(FileFault),
    // A file of so many bytes, which stand at the front of what came.
    File(usize),
    RefusedList(WriteFault),
    // So many numbers of lines, and so many bytes of the lines, each with its end.
    Lines(usize, usize),
    // The list of a file, when it is written again, does not give the file.
    WrittenOtherwise(Listing),
}

pub fn code_count(listing: &Listing) -> usize {
    listing.header.size.cells() * listing.count as usize
}

fn put_list(listing: &Listing, values: &mut Values) {
    let header = &listing.header;
    let told = [
        header.letter.byte() as usize,
        header.size.rows(),
        header.bound.degree(),
        listing.count as usize,
        code_count(listing),
    ];
    put(&mut values.numbers, &told);
}

impl Says for Answer {
    fn words(&self) -> &'static str {
        match self {
            Self::List(..) => "ring @ size # bound # count # codes []",
            Self::RefusedFile(_) => "refused # line # field #",
            Self::File(_) => "\"\"",
            Self::RefusedList(_) => "refused #",
            Self::Lines(..) => "numbers [] \"\"",
            Self::WrittenOtherwise(..) => "written otherwise",
        }
    }

    fn put(&self, values: &mut Values) {
        match self {
            Self::List(listing) | Self::WrittenOtherwise(listing) => put_list(listing, values),
            Self::RefusedFile(fault) => {
                let told = [fault.number(), fault.line(), fault.field()];
                for (place, number) in values.numbers.iter_mut().zip(told) {
                    *place = number as usize;
                }
            }
            Self::File(length) => values.numbers[0] = *length,
            Self::RefusedList(fault) => values.numbers[0] = fault.number() as usize,
            Self::Lines(numbers, lines) => {
                values.numbers[0] = *numbers;
                values.numbers[1] = *lines;
            }
        }
    }
}
