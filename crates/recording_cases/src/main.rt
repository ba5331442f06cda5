#![tactic(auto)]

mod answers;
mod called_runs;
mod field_calls;
mod ring_calls;
mod shown;

use crate::called_runs::CalledRuns;
use cases::try_cases;
use rings::{Binary, Bytes, Mod101};
use runs::run::Run;
use std::io;

fn main(rt: HostRuntime) -> io::Result<()> {
    let mut runs = CalledRuns {
        bits: Run::new(Binary),
        mod101: Run::new(Mod101),
        bytes: Run::new(Bytes),
    };
    try_cases(&rt, &mut runs)
}
