#![tactic(auto)]

mod answers;
mod list_calls;

use crate::list_calls::ListCalls;
use cases::try_cases;
use std::io;

fn main(rt: HostRuntime) -> io::Result<()> {
    try_cases(&rt, &mut ListCalls)
}
