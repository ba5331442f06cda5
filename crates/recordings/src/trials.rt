use crate::lettered::Lettered;
use cases::Tally;
use std::fmt::Display;
use std::io;

// What is tried over a ring, with what is due.
pub trait Trial<R: Lettered> {
    fn carry_out(&self, trials: &mut Trials<'_, '_, R>) -> io::Result<()>;
}

// The ring that is tried, and the tally of what came.
#[derive(Drop)]
pub struct Trials<'t, 'a, R> {
    ring: R,
    tally: &'t mut Tally<'a>,
}

impl<R: Lettered> Trials<'_, '_, R> {
    pub fn ring(&self) -> R {
        self.ring
    }

    // Counts a trial, and tells it on a line of its own.
    pub fn tell(&mut self, line: impl Display + Drop, right: bool) -> io::Result<()> {
        let letter = R::LETTER;
        self.tally.tell(format_args!("{letter}{line}"), right)
    }
}

// Carries out trials one after the other.
pub fn try_all<R: Lettered, T: Trial<R>>(
    ring: R,
    tally: &mut Tally<'_>,
    all: &[T],
) -> io::Result<()> {
    let mut trials = Trials { ring, tally };
    for trial in all {
        trial.carry_out(&mut trials)?;
    }
    Ok(())
}
