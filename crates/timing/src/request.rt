use crate::field_name::FieldName;
use anyhow::Context;
use std::alloc::Global;

// What is asked for: a recording, and how often it is to be put through a run.
#[derive(Drop)]
pub struct Request {
    pub field: FieldName,
    // Any numbers, and no Size and Bound: each start of a run checks them, and a request for none is answered at any.
    pub size: usize,
    pub bound: usize,
    pub repeats: u32,
    // The matrices, one behind the other, each row by row.
    pub codes: Vec<u32>,
}

fn number(word: Option<&str>) -> anyhow::Result<u32> {
    Ok(word.context("a number is missing")?.parse::<u32>()?)
}

// The request that a text of numbers makes: how many codes the field has, the size, the bound, how often, and the codes.
pub fn request_in(heap: Global, text: &str) -> anyhow::Result<Request> {
    let mut words = text.split_ascii_whitespace();
    let field = number(words.next())?;
    let size = number(words.next())? as usize;
    let bound = number(words.next())? as usize;
    let repeats = number(words.next())?;
    let mut codes = Vec::new(heap);
    for word in words {
        codes.push(word.parse::<u32>()?)?;
    }
    Ok(Request {
        field: FieldName::try_from(field)?,
        size,
        bound,
        repeats,
        codes,
    })
}
