ghost use Rattle.std.specs.Prelude.{◌≡◌, ◌+◌, ◌*◌, if◌then◌else◌, nat_lt};

use crate::error::CallError;
use crate::said::{ROOM, Said};
use crate::values::{BYTES, CODES, NONE};

#[derive(Clone, Copy)]
enum Within {
    Words,
    List,
    Text,
}

// What was read of a call or an answer.
#[derive(Clone, Copy)]
pub struct Reader {
    pub said: Said,
    // How many numbers, codes and bytes were put.
    numbers: usize,
    codes: usize,
    bytes: usize,
    within: Within,
    // The number so far, if the last byte was a digit of one.
    number: Option<usize>,
}

// The number that another digit makes of a number. One of twenty digits counts as 18446744073709551615.
fn with_digit(number: usize, digit: u8) -> usize
    ensures { result ≡ (if nat_lt number 1000000000000000000 then number * 10 + digit else 18446744073709551615) }
{
    if number < 1000000000000000000 {
        number * 10 + digit as usize
    } else {
        18446744073709551615
    }
}

impl Reader {
    pub fn new() -> Reader {
        Reader {
            said: Said {
                values: NONE,
                words: [0; ROOM],
                length: 0,
            },
            numbers: 0,
            codes: 0,
            bytes: 0,
            within: Within::Words,
            number: None,
        }
    }

    fn sign(&mut self, byte: u8) -> Result<(), CallError> {
        if self.said.length < ROOM - 1 {
            self.said.words[self.said.length] = byte;
            self.said.length += 1;
            Ok(())
        } else {
            Err(CallError::NotUnderstood)
        }
    }

    fn put(&mut self, number: usize, sign: u8) -> Result<(), CallError> {
        if self.numbers < 16 {
            self.said.values.numbers[self.numbers] = number;
            self.numbers += 1;
        }
        self.sign(sign)
    }

    pub fn end_number(&mut self) -> Result<(), CallError> {
        match self.number {
            Some(number) => {
                self.number = None;
                self.put(number, b'#')
            }
            None => Ok(()),
        }
    }

    fn in_words(&mut self, byte: u8) -> Result<(), CallError> {
        self.end_number()?;
        match byte {
            b'A'..=b'Z' => return self.put(byte as usize, b'@'),
            b'[' => self.within = Within::List,
            b'"' => self.within = Within::Text,
            _ => {}
        }
        self.sign(byte)
    }

    fn put_code(&mut self, number: usize) -> Result<(), CallError> {
        if number <= 4294967295 && self.codes < CODES {
            self.said.values.codes[self.codes] = number as u32;
            self.codes += 1;
            self.number = None;
            Ok(())
        } else {
            Err(CallError::NotUnderstood)
        }
    }

    // A comma or a bracket ends a code. A bracket may also follow a comma, or the one that opens the list.
    fn in_list(&mut self, byte: u8) -> Result<(), CallError> {
        match self.number {
            Some(number) => self.put_code(number)?,
            None if byte != b']' => return Err(CallError::NotUnderstood),
            None => {}
        }
        if byte != b',' {
            self.within = Within::Words;
            return self.put(self.codes, byte);
        }
        Ok(())
    }

    // A byte of a text, whatever it is.
    pub fn take_byte(&mut self, byte: u8) -> Result<(), CallError> {
        match self.within {
            Within::Text if self.bytes < BYTES => {
                self.said.values.bytes[self.bytes] = byte;
                self.bytes += 1;
                Ok(())
            }
            _ => Err(CallError::NotUnderstood),
        }
    }

    fn in_text(&mut self, byte: u8) -> Result<(), CallError> {
        match byte {
            b'"' => {
                self.within = Within::Words;
                self.put(self.bytes, byte)
            }
            b'|' => self.take_byte(b'\n'),
            _ => self.take_byte(byte),
        }
    }

    pub fn take(&mut self, byte: u8) -> Result<(), CallError> {
        match (self.within, byte) {
            (Within::Text, _) => return self.in_text(byte),
            (_, b'0'..=b'9') => {
                self.number = Some(with_digit(self.number.unwrap_or(0), byte - b'0'));
            }
            (Within::List, _) => return self.in_list(byte),
            (Within::Words, _) => return self.in_words(byte),
        }
        Ok(())
    }
}
