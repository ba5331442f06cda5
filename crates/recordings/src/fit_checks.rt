use crate::lettered::Lettered;
use crate::shown::Refused;
use crate::trials::{Trial, Trials};
use recurrences::Refusal;
use recurrences::fits::fits;
use rings::Ring;
use std::{fmt, io};

// A fit check: what is tried, in words, and what is due.
#[derive(Clone, Copy)]
pub struct FitCheck<'a> {
    pub what: &'static str,
    pub size: usize,
    pub degree: usize,
    pub list: &'a [u32],
    pub column: &'a [u32],
    pub due: Result<Option<(usize, usize)>, Refusal>,
}

// What a fit check came to.
#[derive(Drop)]
struct Fit(Result<Option<(usize, usize)>, Refusal>);

impl fmt::Display for Fit {
    fn fmt<W: fmt::Write>(&self, f: &mut fmt::Formatter<W>) -> fmt::Result {
        match self.0 {
            Ok(None) => f.write_str("fits"),
            Ok(Some((place, row))) => write!(f, "fails at place {place}, row {row}"),
            Err(refusal) => Refused(refusal).fmt(f),
        }
    }
}

impl<R: Lettered> Trial<R> for FitCheck<'_> {
    fn carry_out(&self, trials: &mut Trials<'_, '_, R>) -> io::Result<()> {
        let FitCheck {
            what,
            size,
            degree,
            list,
            column,
            due,
        } = *self;
        let came = fits(trials.ring(), size, degree, list, column);
        let fit = Fit(came);
        trials.tell(
            format_args!(", size {size}, degree {degree}, {what}: {fit}"),
            came == due,
        )
    }
}
