#![tactic(auto)]

mod cursor;
mod good;
mod header;
mod limits;
mod lines;
mod numbers;
mod place;
mod reading;
mod writing;

use cases::Tally;
use std::io;

fn main(rt: HostRuntime) -> io::Result<()> {
    let mut tally = Tally::new(&rt);
    good::rings(&mut tally)?;
    good::edges(&mut tally)?;
    cursor::handed_out(&mut tally)?;
    lines::whole_files(&mut tally)?;
    lines::start_letters(&mut tally)?;
    lines::body_letters(&mut tally)?;
    lines::counts(&mut tally)?;
    lines::ring_letters(&mut tally)?;
    numbers::sizes(&mut tally)?;
    numbers::bounds(&mut tally)?;
    numbers::codes(&mut tally)?;
    numbers::ends(&mut tally)?;
    numbers::first_faults(&mut tally)?;
    writing::lists_refused(&mut tally)?;
    writing::orders(&mut tally)?;
    writing::places(&mut tally)?;
    limits::lengths(&mut tally)?;
    limits::places(&mut tally)?;
    tally.close()
}
