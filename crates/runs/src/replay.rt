ghost use Rattle.std.specs.Prelude.{◌≡◌, [], ◌++◌, length, Some, None, Ok, Err};
ghost use Rattle.rings.specs.Arithmetic.{arithmetic};
ghost use Rattle.runs.specs.declared.script.Call.TheVariants.{Column, Continuation};
ghost use Rattle.runs.specs.Recorded.{recorded};
ghost use Rattle.runs.specs.Scripts.{accepted_by, answer_to, replay_refusal, Replayed};

use crate::run::Run;
use crate::script::{Answer, Call};
use recurrences::Refusal;
use rings::{Field, Ring};

// Longer than any place that a call wants.
const LONG: usize = 1025;

impl<F: Field> Run<F> {
    // The place stands in a function of each call that writes one, so that no other call pays for it.
    fn column_answer(&self, number: usize, length: usize) -> Answer
        ensures { result ≡ answer_to (arithmetic F.Field self.now.field) self.now.state.size self.now.bound (recorded self.now.state) (Column number length) }
    {
        let mut place = [0; LONG];
        self.column(number, &mut place[..length.min(LONG)]).into()
    }

    fn continuation_answer(&self, count: usize, length: usize) -> Answer
        ensures { result ≡ answer_to (arithmetic F.Field self.now.field) self.now.state.size self.now.bound (recorded self.now.state) (Continuation count length) }
    {
        let mut place = [0; LONG];
        self.continuation(count, &mut place[..length.min(LONG)])
            .into()
    }

    // Makes a call, with a place of the length told, or of 1,025 numbers where that is more.
    fn answer(&mut self, call: Call<'_>) -> Answer
        ensures answer { result ≡ answer_to (arithmetic F.Field self.old.field) self.old.state.size self.old.bound (recorded self.old.state) call.entry }
        ensures accepted { recorded self.new.state ≡ recorded self.old.state ++ accepted_by call.entry result }
        ensures over { self.new.field ≡ self.old.field }
        ensures size { self.new.state.size ≡ self.old.state.size }
        ensures bound { self.new.bound ≡ self.old.bound }
    {
        match call {
            Call::Offer(matrix) => self.offer(matrix).into(),
            Call::Standing => Answer::Stands(self.standing()),
            Call::Column(number, length) => self.column_answer(number, length),
            Call::Continuation(count, length) => self.continuation_answer(count, length),
        }
    }

    // Makes the calls of a script, where the run has taken nothing.
    fn play(&mut self, script: &[Call<'_>], answers: &mut [Answer])
        requires fresh { recorded self.old.state ≡ [] }
        requires length { length answers.old ≡ length script.now }
        ensures { Replayed (arithmetic F.Field self.old.field) self.old.state.size self.old.bound script.now answers.new }
    {
        // Of what is written through a zip over iter_mut a proof learns nothing.
        for (i, answer) in answers.iter_mut().enumerate() {
            *answer = self.answer(script[i]);
        }
    }
}

// Starts a run, makes the calls of a script, with whatever arguments and in whatever order, and answers what each
// call answered.
pub fn replay<F: Field>(
    field: F,
    size: usize,
    bound: usize,
    script: &[Call<'_>],
    answers: &mut [Answer],
) -> Result<(), Refusal>
    ensures answer { elim result [ Ok _ ↦ replay_refusal size bound (length script.now) (length answers.old) ≡ None | Err e ↦ (replay_refusal size bound (length script.now) (length answers.old) ≡ Some e) × (answers.new ≡ answers.old) ] }
    ensures replayed { result ≡ Ok tt → Replayed (arithmetic F.Field field) size bound script.now answers.new }
{
    let mut run = Run::new(field);
    run.start(field, size, bound)?;
    if answers.len() != script.len() {
        return Err(Refusal::Length);
    }
    run.play(script, answers);
    Ok(())
}
