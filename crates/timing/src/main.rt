#![tactic(auto)]

mod field_name;
mod repeat;
mod request;

use crate::repeat::standing_after;
use crate::request::request_in;
use runs::standing::Standing;
use std::io;

fn print_line(rt: &HostRuntime, size: usize, standing: &Standing) -> io::Result<()> {
    print!(rt; "{} {} {}", standing.phase, standing.taken, standing.total)?;
    for degree in standing.generator_degrees.iter().take(size) {
        print!(rt; " {degree}")?;
    }
    println!(rt)
}

fn main(rt: HostRuntime) -> anyhow::Result<()> {
    let text = io::read_to_string(rt.alloc(), rt.stdin())?;
    let request = request_in(rt.alloc(), text.as_str())?;
    let standing = standing_after(&request)?;
    print_line(&rt, request.size, &standing)?;
    Ok(())
}
