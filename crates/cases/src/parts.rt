ghost use Rattle.std.specs.Prelude.{◌≡◌, Ok, Err};
ghost use Rattle.cases.specs.Parts.{number_in, codes_in, text_in};

use crate::error::CallError;
use crate::said::Said;
use crate::values::Values;
use std::alloc::Global;
use std::str;

// A part of a call. One space stands between two parts.
#[derive(Clone, Copy, PartialEq, Eq, Debug)]
pub enum Part<'a> {
    Word(&'a str),
    Number(usize),
    Codes(&'a [u32]),
    Text(&'a [u8]),
}

impl Part<'_> {
    pub fn number(&self) -> Result<usize, CallError>
        ensures { result ≡ number_in self.now }
    {
        match self {
            Part::Number(number) => Ok(*number),
            _ => Err(CallError::NotUnderstood),
        }
    }

    pub fn codes(&self) -> Result<&[u32], CallError>
        ensures { elim result [ Ok codes ↦ codes_in self.now ≡ Ok codes.now | Err e ↦ codes_in self.now ≡ Err e ] }
    {
        match self {
            Part::Codes(codes) => Ok(codes),
            _ => Err(CallError::NotUnderstood),
        }
    }

    pub fn text(&self) -> Result<&[u8], CallError>
        ensures { elim result [ Ok text ↦ text_in self.now ≡ Ok text.now | Err e ↦ text_in self.now ≡ Err e ] }
    {
        match self {
            Part::Text(text) => Ok(text),
            _ => Err(CallError::NotUnderstood),
        }
    }
}

// The ring that a letter names, by its byte.
fn ring(byte: usize) -> &'static str {
    match u8::try_from(byte) {
        Ok(b'B') => "B",
        Ok(b'P') => "P",
        Ok(b'Y') => "Y",
        Ok(b'W') => "W",
        _ => "@",
    }
}

// What stands in the place of a value.
#[derive(Clone, Copy, PartialEq, Eq)]
enum Sign {
    Number,
    Letter,
    Codes,
    Text,
}

fn sign_of(word: &str) -> Option<Sign> {
    match word {
        "#" => Some(Sign::Number),
        "@" => Some(Sign::Letter),
        "[]" => Some(Sign::Codes),
        "\"\"" => Some(Sign::Text),
        _ => None,
    }
}

// The value that is due at a sign, which has this number. Its codes begin where those before end.
fn value(values: &Values, sign: Sign, number: usize, listed: usize) -> Part<'_> {
    match sign {
        Sign::Number => Part::Number(number),
        Sign::Letter => Part::Word(ring(number)),
        Sign::Codes => Part::Codes(values.list(listed, number)),
        Sign::Text => Part::Text(values.text(number)),
    }
}

// What is said, in parts. The numbers go to the signs in their order; a sign that was itself written takes the next one too.
pub(crate) fn parts_of(alloc: Global, said: &Said) -> Result<Vec<Part<'_>>, CallError> {
    let words = str::from_utf8(said.words()).map_err(|_| CallError::NotUnderstood)?;
    let mut numbers = said.values.numbers.iter().copied();
    let mut listed = 0;
    let mut parts = Vec::new(alloc);
    for word in words.split(' ') {
        if let Some(sign) = sign_of(word) {
            let number = numbers.next().unwrap_or(0);
            parts.push(value(&said.values, sign, number, listed))?;
            if sign == Sign::Codes {
                listed = number;
            }
        } else {
            parts.push(Part::Word(word))?;
        }
    }
    Ok(parts)
}
