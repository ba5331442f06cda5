ghost use Rattle.std.specs.Prelude.{◌≡◌, ◌+◌, ◌*◌};
ghost use Rattle.recurrences.specs.Theorems.{DegreesAddUp, DegreesAddUpTo, ColumnsGenerate, DegreesAreLeast, ShortExactlyWhenBeyond, CountsAreBounded, SettledIsFinal, ContinuationIsUnique};
ghost use Rattle.recurrences.specs.Midsteps.{MidstepsAreBounded, DivisorsAreNotZero, GeneratorDegreesAreAtMostCount, RunRestsOnMatricesTaken};

fn degrees_are_least()
    ensures degrees_add_up { DegreesAddUp }
    ensures columns_generate { ColumnsGenerate }
    ensures degrees_are_least { DegreesAreLeast }
    ensures short_exactly_when_beyond { ShortExactlyWhenBeyond }
{}

fn ends_are_final()
    ensures counts_are_bounded { CountsAreBounded }
    ensures settled_is_final { SettledIsFinal }
    ensures continuation_is_unique { ContinuationIsUnique }
{}

// What a run finds is least, and final once it is settled.
pub fn degrees_are_least_and_final()
    ensures degrees_add_up { DegreesAddUp }
    ensures columns_generate { ColumnsGenerate }
    ensures degrees_are_least { DegreesAreLeast }
    ensures short_exactly_when_beyond { ShortExactlyWhenBeyond }
    ensures counts_are_bounded { CountsAreBounded }
    ensures settled_is_final { SettledIsFinal }
    ensures continuation_is_unique { ContinuationIsUnique }
{
    degrees_are_least();
    ends_are_final();
}

fn degrees_add_up_to(rows: u32, count: u32)
    ensures { DegreesAddUpTo rows count (rows * (count + 1)) }
{}

// What all degrees of a run add up to after so many matrices of so many rows, over every field.
pub fn sum_of_degrees(rows: u32, count: u32) -> u64
    ensures value { result ≡ rows * (count + 1) }
    ensures law { DegreesAddUpTo rows count result }
{
    degrees_add_up_to(rows, count);
    rows as u64 * (count as u64 + 1)
}

fn midsteps_are_bounded()
    ensures midsteps_are_bounded { MidstepsAreBounded }
    ensures divisors_are_not_zero { DivisorsAreNotZero }
{}

fn runs_are_bounded()
    ensures degrees_are_at_most_count { GeneratorDegreesAreAtMostCount }
    ensures rests_on_matrices_taken { RunRestsOnMatricesTaken }
{}

// What a program may rely on in the midst of a step.
pub fn steps_stay_in_bounds()
    ensures midsteps_are_bounded { MidstepsAreBounded }
    ensures divisors_are_not_zero { DivisorsAreNotZero }
    ensures degrees_are_at_most_count { GeneratorDegreesAreAtMostCount }
    ensures rests_on_matrices_taken { RunRestsOnMatricesTaken }
{
    midsteps_are_bounded();
    runs_are_bounded();
}
