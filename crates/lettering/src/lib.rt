// The letters of a packed list that stands in the working slice (document 01, "Number: .." and "Code of v: ..").
#![tactic(auto)]

ghost use Rattle.std.specs.Prelude.{◌+◌, ◌<◌};
ghost use Rattle.laws.specs.Puts.{farthest};
ghost use Rattle.lettering.specs.Said.{most_step, StepReady, NumberIs, StepWrote, ListReady, ListWrote};

use letters::code::{Code, put_code, put_letter};
use table::limits::STEP_WORDS;

// No step has more letters: those of its number, and a `Z`.
pub const MOST_LETTERS: usize = Code::MOST + 1;

// The number of the step at `at`. Those of statements stand from `numbers` on, plus 1; a reference adds both lengths and its mark − 1.
fn step_number(work: &[u32], at: usize, numbers: usize, both: u32) -> u32
    requires { StepReady at numbers both work.now }
    ensures { NumberIs at numbers both result work.now }
{
    let reference = work[at];
    if reference != 0 {
        return both + (reference - 1);
    }
    let statement = work[at + 2] as usize;
    work[numbers + statement] - 1
}

// The letters of the step at `at`: a marked step is followed by `Z`.
pub fn put_step(
    work: &[u32],
    at: usize,
    numbers: usize,
    both: u32,
    end: usize,
    out: &mut [u8],
) -> usize
    requires step_ready { StepReady at numbers both work.now }
    requires most_step_bound { end + most_step < farthest }
    ensures { StepWrote at numbers both end result work.now out.old out.new }
{
    let number = step_number(work, at, numbers, both);
    let next = put_code(number, end, out);
    if work[at + 1] == 0 {
        return next;
    }
    put_letter(b'Z', next, out)
}

// The letters of `many` steps that stand from `steps` on. Lent an empty slice, it measures.
pub fn put_steps(
    work: &[u32],
    steps: usize,
    many: usize,
    numbers: usize,
    both: u32,
    out: &mut [u8],
) -> usize
    requires { ListReady steps many numbers both work.now }
    ensures { ListWrote steps many numbers both result work.now out.old out.new }
{
    let mut end: usize = 0;
    for i in 0..many {
        end = put_step(work, steps + STEP_WORDS * i, numbers, both, end, out);
    }
    end
}
