use crate::answers::Answer;
use crate::field_calls::field_call;
use crate::ring_calls::ring_call;
use cases::Part::{self, Word};
use cases::{CallError, Calls, Values};
use rings::{Binary, Bytes, Mod101, Words};
use runs::run::Run;

// The run over each field that is called.
#[derive(Drop)]
pub struct CalledRuns {
    pub bits: Run<Binary>,
    pub mod101: Run<Mod101>,
    pub bytes: Run<Bytes>,
}

impl Calls for CalledRuns {
    type Answer = Answer;

    // The letter of the ring is the second word of each call.
    fn carry_out(&mut self, call: &[Part<'_>], came: &mut Values) -> Result<Answer, CallError> {
        match call {
            [_, Word("B"), ..] => field_call(Binary, &mut self.bits, call, came),
            [_, Word("P"), ..] => field_call(Mod101, &mut self.mod101, call, came),
            [_, Word("Y"), ..] => field_call(Bytes, &mut self.bytes, call, came),
            [_, Word("W"), ..] => ring_call(Words, call),
            _ => Err(CallError::NotUnderstood),
        }
    }
}
