// The working slice has three arrays of s words from `from` on: the number of each statement in the theorem's list plus 1 (0 where it
// is not there), how often each other statement is used, and those by first appearance.
ghost use Rattle.listing.specs.Arrays.{Ready, OneMore, StepReady, StepUsed, StepsReady, AllUsed};

use table::limits::STEP_WORDS;

// One normal step. Answers how many different statements there are, with this one.
fn use_statement(work: &mut [u32], s: usize, from: usize, many: usize, statement: usize) -> usize
    requires { Ready s from many statement work.old }
    ensures { OneMore s from many statement result work.old work.new }
{
    if work[from + statement] != 0 {
        return many;
    }
    let at = from + s + statement;
    let uses = work[at];
    work[at] = uses + 1;
    if uses != 0 {
        return many;
    }
    work[from + 2 * s + many] = statement as u32;
    many + 1
}

// One step, which stands at `at`: a reference uses nothing.
fn use_step(work: &mut [u32], s: usize, from: usize, many: usize, at: usize) -> usize
    requires { StepReady s from many at work.old }
    ensures { StepUsed s from many at result work.old work.new }
{
    if work[at] != 0 {
        return many;
    }
    let statement = work[at + 2] as usize;
    use_statement(work, s, from, many, statement)
}

// All steps of a packed list that stands from `steps` on. Answers how many different statements its normal steps have.
pub fn use_steps(work: &mut [u32], steps: usize, many: usize, s: usize, from: usize) -> usize
    requires { StepsReady steps many s from work.old }
    ensures { AllUsed steps many s from result work.old work.new }
{
    let mut listed: usize = 0;
    for i in 0..many {
        listed = use_step(work, s, from, listed, steps + STEP_WORDS * i);
    }
    listed
}
