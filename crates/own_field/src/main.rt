#![tactic(auto)]

mod called;
mod mod7;
mod replayed;
mod scripts;

use cases::Tally;
use std::io;

fn main(rt: HostRuntime) -> io::Result<()> {
    let mut tally = Tally::new(&rt);
    called::called(&mut tally)?;
    replayed::replayed(&mut tally)?;
    replayed::refused(&mut tally)
}
