#![tactic(auto)]

use analysis::{LEAST_ANSWER, analyse};
use lists::{FileFault, GREATEST_LENGTH};
use std::io;
use std::io::{Read, Write};

// The one line that tells why a file is refused.
fn print_refusal(rt: &HostRuntime, fault: FileFault) -> io::Result<()> {
    println!(rt; "F,{},{},{}", fault.number(), fault.line(), fault.field())
}

// Standard input, up to one byte beyond the greatest length of a file: by that byte a longer file is told.
fn main(rt: HostRuntime) -> io::Result<()> {
    let mut file = Vec::new(rt.alloc());
    let mut input = rt.stdin().take(GREATEST_LENGTH as u64 + 1);
    let _ = input.read_to_end(&mut file)?;
    // The call allocates nothing: it fills a lent place, and answers how much of it.
    let mut answer = [0; LEAST_ANSWER];
    match analyse(file.as_slice(), &mut answer) {
        Ok(length) => rt.stdout().write_all(&answer[..length]),
        Err(fault) => print_refusal(&rt, fault),
    }
}
