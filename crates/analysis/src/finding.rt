ghost use Rattle.std.specs.Prelude.{◌≡◌, ℕ, ◌+◌, ◌<◌, ◌≤◌, ◌^◌, ◌≢◌, [], ◌∷◌, length, take};
ghost use Rattle.rings.specs.Arithmetic.{arithmetic, reading};
ghost use Rattle.recurrences.specs.Degrees.{total};
ghost use Rattle.recurrences.specs.Standing.{listed};
ghost use Rattle.recurrences.specs.declared.phase.Phase.TheVariants.{Short};
ghost use Rattle.runs.specs.Recorded.{recorded};
ghost use Rattle.runs.specs.Standings.{columns_after, count_of, phase_after, shown};
ghost use Rattle.lists.specs.Limits.{greatest_length};
ghost use Rattle.lists.specs.LineText.{line_text};
ghost use Rattle.lists.specs.Places.{written};
ghost use Rattle.verdicts.specs.declared.verdict.Verdict.TheVariants.{Insufficient, Misfit};
ghost use Rattle.analysis.specs.Limits.{least_answer};
ghost use Rattle.analysis.specs.Answer.{column_line, columns_under, degree_line, lines_under, misfit_line, ColumnsGiven};

use lists::write_line;
use recurrences::GREATEST_SIZE;
use rings::{Field, Ring};
use runs::run::Run;
use verdicts::{LONGEST_COLUMN, Verdict, generator};

// Writes a line at the front of a place, and answers how many bytes it has.
fn put_line(start: &[u8], numbers: &[u32], place: &mut [u8]) -> usize
    requires short { length (line_text start.now numbers.now) ≤ greatest_length }
    requires room { length (line_text start.now numbers.now) ≤ length place.old }
    ensures length { result ≡ length (line_text start.now numbers.now) }
    ensures place { place.new ≡ written 0 (line_text start.now numbers.now) place.old }
{
    write_line(start, numbers, place, 0).unwrap()
}

// How many matrices a run took, the total of its generator degrees, and these, with 0 behind them. Where the run stands tells how
// small they are.
fn numbers_of<F: Field>(run: &Run<F>) -> [u32; 2 + GREATEST_SIZE]
    ensures { let N = run.now.state.size in let taken = recorded run.now.state in let d = (columns_after (arithmetic F.Field run.now.field) N taken).gen_degree in result ≡ count_of N taken ∷ total N d ∷ shown N d }
{
    let standing = run.standing();
    let degrees = standing.generator_degrees;
    // Written out, since a map over the degrees would still have to be laid out behind the two other numbers.
    [
        standing.taken as u32,
        standing.total as u32,
        degrees[0] as u32,
        degrees[1] as u32,
        degrees[2] as u32,
        degrees[3] as u32,
    ]
}

// What there is to write of a run and the verdict by it.
#[derive(Drop)]
pub(crate) struct Finding<'a, F: Field> {
    run: &'a Run<F>,
    verdict: Verdict,
    // How many matrices were taken, the total of the generator degrees, and these, with 0 behind them.
    numbers: [u32; 2 + GREATEST_SIZE],
    ghost told: { take (2 + run.now.state.size) numbers ≡ count_of run.now.state.size (recorded run.now.state) ∷ total run.now.state.size (columns_after (reading F.Ring.size (F.Ring.means run.now.field) (F.Field.inverse run.now.field)) run.now.state.size (recorded run.now.state)).gen_degree ∷ listed run.now.state.size (columns_after (reading F.Ring.size (F.Ring.means run.now.field) (F.Field.inverse run.now.field)) run.now.state.size (recorded run.now.state)).gen_degree },
    ghost columns: { verdict ≢ Insufficient → phase_after (reading F.Ring.size (F.Ring.means run.now.field) (F.Field.inverse run.now.field)) run.now.state.size run.now.bound (recorded run.now.state) ≢ Short },
    ghost place: { (l : ℕ) → verdict ≡ Misfit l → l < 2 ^ 32 },
    ghost short: { length (lines_under (reading F.Ring.size (F.Ring.means run.now.field) (F.Field.inverse run.now.field)) run.now.state.size (recorded run.now.state) verdict) ≤ least_answer },
}

impl<'a, F: Field> Finding<'a, F> {
    // By a field of at most 256 codes.
    pub(crate) fn new(run: &'a Run<F>, verdict: Verdict) -> Self
        requires bytes { F.Ring.size ≤ 256 }
        requires given { ColumnsGiven (phase_after (arithmetic F.Field run.now.field) run.now.state.size run.now.bound (recorded run.now.state)) verdict }
        ensures run { result.run.now ≡ run.now }
        ensures verdict { result.verdict ≡ verdict }
    {
        Finding {
            run,
            verdict,
            numbers: numbers_of(run),
        }
    }

    // Writes the line of degrees at the front of a place, and answers how many bytes it has.
    fn put_degrees(&self, place: &mut [u8]) -> usize
        requires { let r = self.now.run.now in length (degree_line (arithmetic F.Field r.field) r.state.size (recorded r.state) self.now.verdict) ≤ length place.old }
        ensures length { let r = self.now.run.now in result ≡ length (degree_line (arithmetic F.Field r.field) r.state.size (recorded r.state) self.now.verdict) }
        ensures place { let r = self.now.run.now in place.new ≡ written 0 (degree_line (arithmetic F.Field r.field) r.state.size (recorded r.state) self.now.verdict) place.old }
    {
        put_line(
            &[b'D', b',', self.verdict.letter()],
            &self.numbers[..2 + self.run.size().rows()],
            place,
        )
    }

    // The same of the place of a misfit, where there is one.
    fn put_misfit(&self, place: &mut [u8]) -> usize
        requires { length (misfit_line self.now.verdict) ≤ length place.old }
        ensures length { result ≡ length (misfit_line self.now.verdict) }
        ensures place { place.new ≡ written 0 (misfit_line self.now.verdict) place.old }
    {
        match self.verdict {
            Verdict::Misfit(l) => put_line(b"X", &[l as u32], place),
            _ => 0,
        }
    }

    // The same of a generator column, counted from 0.
    fn put_column(&self, j: usize, place: &mut [u8]) -> usize
        requires column { j < self.now.run.now.state.size }
        requires given { self.now.verdict ≢ Insufficient }
        requires room { let r = self.now.run.now in length (column_line (arithmetic F.Field r.field) r.state.size (recorded r.state) j) ≤ length place.old }
        ensures length { let r = self.now.run.now in result ≡ length (column_line (arithmetic F.Field r.field) r.state.size (recorded r.state) j) }
        ensures place { let r = self.now.run.now in place.new ≡ written 0 (column_line (arithmetic F.Field r.field) r.state.size (recorded r.state) j) place.old }
    {
        let mut longest = [0; LONGEST_COLUMN];
        let codes = generator(self.run, j, &mut longest).unwrap();
        put_line(&[b'C', b',', b'1' + j as u8], codes, place)
    }

    // The same of all generator columns. A column is asked for by its number, and where its line begins is known only behind the
    // line before.
    fn put_all_columns(&self, place: &mut [u8]) -> usize
        requires given { self.now.verdict ≢ Insufficient }
        requires room { let r = self.now.run.now in length (columns_under (arithmetic F.Field r.field) r.state.size (recorded r.state) self.now.verdict) ≤ length place.old }
        ensures length { let r = self.now.run.now in result ≡ length (columns_under (arithmetic F.Field r.field) r.state.size (recorded r.state) self.now.verdict) }
        ensures place { let r = self.now.run.now in place.new ≡ written 0 (columns_under (arithmetic F.Field r.field) r.state.size (recorded r.state) self.now.verdict) place.old }
    {
        let mut used = 0;
        for j in 0..self.run.size().rows() {
            used += self.put_column(j, &mut place[used..]);
        }
        used
    }

    // The same, unless the bound is insufficient.
    fn put_columns(&self, place: &mut [u8]) -> usize
        requires { let r = self.now.run.now in length (columns_under (arithmetic F.Field r.field) r.state.size (recorded r.state) self.now.verdict) ≤ length place.old }
        ensures length { let r = self.now.run.now in result ≡ length (columns_under (arithmetic F.Field r.field) r.state.size (recorded r.state) self.now.verdict) }
        ensures place { let r = self.now.run.now in place.new ≡ written 0 (columns_under (arithmetic F.Field r.field) r.state.size (recorded r.state) self.now.verdict) place.old }
    {
        if self.verdict == Verdict::Insufficient {
            return 0;
        }
        self.put_all_columns(place)
    }

    // The same of all lines.
    pub(crate) fn put(&self, place: &mut [u8]) -> usize
        requires { least_answer ≤ length place.old }
        ensures length { let r = self.now.run.now in result ≡ length (lines_under (arithmetic F.Field r.field) r.state.size (recorded r.state) self.now.verdict) }
        ensures short { result ≤ least_answer }
        ensures place { let r = self.now.run.now in place.new ≡ written 0 (lines_under (arithmetic F.Field r.field) r.state.size (recorded r.state) self.now.verdict) place.old }
    {
        let mut used = self.put_degrees(place);
        used += self.put_misfit(&mut place[used..]);
        used += self.put_columns(&mut place[used..]);
        used
    }
}
