use crate::error::CallError;
use crate::parts::Part;
use crate::values::Values;

// What a call answers.
pub trait Says {
    // Its words, with a sign in the place of each value.
    fn words(&self) -> &'static str;

    // Puts its numbers.
    fn put(&self, values: &mut Values);
}

// The calls that cases are made of.
pub trait Calls {
    type Answer: Says + Drop;

    // Carries out a call. A place is lent out of the codes or the bytes of what came.
    fn carry_out(
        &mut self,
        call: &[Part<'_>],
        came: &mut Values,
    ) -> Result<Self::Answer, CallError>;
}
