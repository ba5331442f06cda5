use recurrences::Refusal;
use runs::standing::Standing;
use std::fmt;

// How many numbers of a list are shown.
const SHOWN: usize = 16;

// The first numbers of a list.
#[derive(Drop)]
pub struct Listed<'a, T>(pub &'a [T]);

impl<T: fmt::Display> fmt::Display for Listed<'_, T> {
    fn fmt<W: fmt::Write>(&self, f: &mut fmt::Formatter<W>) -> fmt::Result {
        for (i, number) in self.0.iter().take(SHOWN).enumerate() {
            if i > 0 {
                f.write_str(",")?;
            }
            number.fmt(f)?;
        }
        if self.0.len() > SHOWN {
            f.write_str(",..")?;
        }
        Ok(())
    }
}

// A refusal, by its number.
#[derive(Drop)]
pub struct Refused(pub Refusal);

impl fmt::Display for Refused {
    fn fmt<W: fmt::Write>(&self, f: &mut fmt::Formatter<W>) -> fmt::Result {
        let number = self.0.number();
        write!(f, "refused with {number}")
    }
}

// Where a run stands.
#[derive(Drop)]
pub struct Stands(pub Standing);

impl fmt::Display for Stands {
    fn fmt<W: fmt::Write>(&self, f: &mut fmt::Formatter<W>) -> fmt::Result {
        let Standing {
            phase,
            taken,
            total,
            greatest,
            least,
            ..
        } = self.0;
        let generators = Listed(&self.0.generator_degrees);
        let auxiliaries = Listed(&self.0.auxiliary_degrees);
        write!(f, "{phase} after {taken}, total {total}, ")?;
        write!(f, "greatest {greatest}, least {least}, ")?;
        write!(f, "degrees {generators} and {auxiliaries}")
    }
}
