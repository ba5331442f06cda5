use crate::calls::{Calls, Says};
use crate::error::CallError;
use crate::parts::parts_of;
use crate::said::Said;
use crate::short_forms::read_said;
use crate::tally::Tally;
use crate::values::{NONE, Values};
use std::alloc::Global;
use std::fmt::Display;
use std::io;

fn answer<C: Calls>(
    alloc: Global,
    calls: &mut C,
    call: &Said,
    came: &mut Values,
) -> Result<C::Answer, CallError> {
    let call = parts_of(alloc, call)?;
    calls.carry_out(call.as_slice(), came)
}

// Prints what came in place of what is due: its words, and the first of its values.
fn print_wrong(
    rt: &HostRuntime,
    line: &str,
    word: &str,
    words: impl Display + Drop,
    came: &Values,
) -> io::Result<()> {
    let numbers = came.numbers;
    let codes = &came.codes[0..16];
    let bytes = &came.bytes[0..16];
    println!(rt; "{line}, {word}: {words} came, with {numbers:?}, {codes:?}, {bytes:?}")
}

fn try_line<C: Calls>(calls: &mut C, tally: &mut Tally<'_>, line: &str) -> io::Result<()> {
    let rt = tally.rt();
    if line.is_empty() || line.starts_with('#') {
        return println!(rt; "{line}");
    }
    let (call, due) = line.split_once(" -> ").unwrap_or((line, ""));
    let due = read_said(due);
    let mut came = NONE;
    match answer(rt.alloc(), calls, &read_said(call), &mut came) {
        Ok(answer) => {
            answer.put(&mut came);
            let words = answer.words();
            if words.as_bytes() == due.words() && came.same(&due.values) {
                return tally.tell(line, true);
            }
            print_wrong(rt, line, tally.count(false), words, &came)
        }
        Err(error) => print_wrong(rt, line, tally.count(false), error, &came),
    }
}

// Tries the cases that the standard input has, one to a line: CALL -> ANSWER. Comments, which begin with #, and empty
// lines are printed as they are; a case is printed with the word right, or with WRONG and what came. At the end stand
// the counts. Unless something was tried and all of it came out right, the answer is an error.
pub fn try_cases<C: Calls>(rt: &HostRuntime, calls: &mut C) -> io::Result<()> {
    let text = io::read_to_string(rt.alloc(), rt.stdin())?;
    let mut tally = Tally::new(rt);
    for line in text.lines() {
        try_line(calls, &mut tally, line)?;
    }
    tally.close()?;
    if tally.all_right() {
        Ok(())
    } else {
        Err(io::Error::other("not all is right"))
    }
}
