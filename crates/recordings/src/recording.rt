use crate::checks::Check;
use crate::lettered::Lettered;
use crate::trials::{Trial, Trials};
use rings::{Field, Ring};
use runs::run::Run;
use std::io;

// Calls on a run that is not yet started, one after the other.
#[derive(Drop)]
pub struct Recording<'a>(pub &'a [Check<'a>]);

impl<F: Lettered + Field> Trial<F> for Recording<'_> {
    fn carry_out(&self, trials: &mut Trials<'_, '_, F>) -> io::Result<()> {
        let mut run = Run::new(trials.ring());
        for check in self.0 {
            check.carry_out(trials, &mut run, ": ")?;
        }
        Ok(())
    }
}

// Calls on a run behind a recording, which is put through untold and with no place for its columns.
#[derive(Drop)]
pub struct Continued<'a> {
    pub what: &'static str,
    pub recording: &'a [Check<'a>],
    pub checks: &'a [Check<'a>],
}

impl<F: Lettered + Field> Trial<F> for Continued<'_> {
    fn carry_out(&self, trials: &mut Trials<'_, '_, F>) -> io::Result<()> {
        let what = self.what;
        let mut run = Run::new(trials.ring());
        for check in self.recording {
            let _ = check.call(trials.ring(), &mut run, &mut []);
        }
        for check in self.checks {
            check.carry_out(trials, &mut run, format_args!(", {what}, "))?;
        }
        Ok(())
    }
}
