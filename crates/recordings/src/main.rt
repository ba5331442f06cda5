#![tactic(auto)]

mod came;
mod checks;
mod continuations;
mod edges;
mod fit_checks;
mod fit_codes;
mod fit_limits;
mod fits_of_one_lane;
mod fits_of_several_lanes;
mod lettered;
mod long_runs;
mod operations;
mod published;
mod recorded_runs;
mod recording;
mod run_limits;
mod shown;
mod telling_runs;
mod trials;

use cases::Tally;
use std::io;

fn main(rt: HostRuntime) -> io::Result<()> {
    let mut tally = Tally::new(&rt);
    edges::edges(&mut tally)?;
    published::published(&mut tally)?;
    fits_of_one_lane::fits_of_one_lane(&mut tally)?;
    fits_of_several_lanes::fits_of_several_lanes(&mut tally)?;
    fit_limits::fit_limits(&mut tally)?;
    fit_codes::fit_codes(&mut tally)?;
    recorded_runs::recorded_runs(&mut tally)?;
    telling_runs::telling_runs(&mut tally)?;
    long_runs::long_runs(&mut tally)?;
    run_limits::run_limits(&mut tally)?;
    continuations::continuations(&mut tally)?;
    tally.close()
}
