use crate::error::CallError;
use crate::reader::Reader;
use crate::said::{ROOM, Said};

// Where a reading of short forms stands.
#[derive(Clone, Copy)]
enum Short {
    Nothing,
    // In a part in braces, which begins here.
    Part(usize),
    // In the N of a part that begins and ends here, with the N so far.
    Times(usize, usize, usize),
    // In the N of a byte, with the N so far.
    Byte(usize),
}

// A text in which something is said in short: {PART*N} is PART so often, and <N> is the byte N. The two do not nest.
#[derive(Clone, Copy)]
struct ShortForms<'a> {
    text: &'a [u8],
    reader: Reader,
    short: Short,
}

// The N that another digit makes. From 100,000 on, further digits are passed over.
fn with_digit(n: usize, digit: u8) -> usize {
    if n < 100000 {
        n * 10 + digit as usize
    } else {
        n
    }
}

impl ShortForms<'_> {
    // The part was taken once.
    fn repeat(&mut self, from: usize, to: usize, times: usize) -> Result<(), CallError> {
        let part = self.text.get(from..to).unwrap_or(&[]);
        for _ in 1..times {
            for byte in part {
                self.reader.take(*byte)?;
            }
        }
        self.short = Short::Nothing;
        Ok(())
    }

    fn take(&mut self, at: usize, byte: u8) -> Result<(), CallError> {
        match (self.short, byte) {
            (Short::Nothing, b'{') => self.short = Short::Part(at.saturating_add(1)),
            (Short::Nothing, b'<') => self.short = Short::Byte(0),
            (Short::Part(from), b'*') => self.short = Short::Times(from, at, 0),
            (Short::Nothing | Short::Part(_), b'{' | b'}' | b'<' | b'>' | b'*') => {
                return Err(CallError::NotUnderstood);
            }
            (Short::Nothing | Short::Part(_), _) => return self.reader.take(byte),
            (Short::Times(from, to, n), b'0'..=b'9') => {
                self.short = Short::Times(from, to, with_digit(n, byte - b'0'));
            }
            (Short::Times(from, to, n), b'}') if n > 0 => return self.repeat(from, to, n),
            (Short::Byte(n), b'0'..=b'9') => self.short = Short::Byte(with_digit(n, byte - b'0')),
            (Short::Byte(n), b'>') if n < 256 => {
                self.short = Short::Nothing;
                return self.reader.take_byte(n as u8);
            }
            _ => return Err(CallError::NotUnderstood),
        }
        Ok(())
    }

    fn read(&mut self) -> Result<(), CallError> {
        for (at, byte) in self.text.iter().enumerate() {
            self.take(at, *byte)?;
        }
        match self.short {
            Short::Nothing => self.reader.end_number(),
            _ => Err(CallError::NotUnderstood),
        }
    }
}

pub fn read_said(text: &str) -> Said {
    let mut short = ShortForms {
        text: text.as_bytes(),
        reader: Reader::new(),
        short: Short::Nothing,
    };
    if short.read().is_err() {
        short.reader.said.length = ROOM;
    }
    short.reader.said
}
