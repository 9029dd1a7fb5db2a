// A step is five u32: reference (0 for a normal step), mark or 0, statement (0 for a reference), parent statement plus 1, hypothesis index.
ghost use Rattle.std.specs.Prelude.{◌≡◌, ◌+◌, ◌*◌, ◌≤◌, length};
ghost use Rattle.defs.specs.Steps.{step_size};
ghost use Rattle.replay.specs.Steps.{step_of, step_at, mark_right, kind_right, step_right};

use table::limits::STEP_WORDS;

#[derive(Clone, Copy, Debug, PartialEq, Eq)]
pub struct Step {
    pub reference: u32,
    pub mark: u32,
    pub statement: u32,
    pub parent: u32,
    pub index: u32,
}

pub fn read_step(steps: &[u32], k: usize) -> Step
    requires { step_size * k + step_size ≤ length steps.now }
    ensures { step_of result ≡ step_at steps.now k }
{
    let at = STEP_WORDS * k;
    Step {
        reference: steps[at],
        mark: steps[at + 1],
        statement: steps[at + 2],
        parent: steps[at + 3],
        index: steps[at + 4],
    }
}

// A mark must be one more than the marks before that step.
#[tactic(auto, unfolding(crate::specs::Steps::mark_right))]
fn mark_right(mark: u32, marks: usize) -> bool
    ensures { result ≡ mark_right marks mark }
{
    mark == 0 || mark as usize - 1 == marks
}

// A reference must be among those; a statement is below s; unused fields are 0.
#[tactic(auto, unfolding(crate::specs::Steps::kind_right))]
fn kind_right(reference: u32, statement: u32, statements: u32, marks: usize) -> bool
    ensures { result ≡ kind_right statements marks reference statement }
{
    if reference == 0 {
        statement < statements
    } else {
        reference as usize <= marks && statement == 0
    }
}

// 16 otherwise; explicit fields are 0.
#[tactic(auto, unfolding(crate::specs::Steps::step_right, laws::specs::Tools::all_of))]
pub fn step_right(step: Step, statements: u32, marks: usize) -> bool
    ensures { result ≡ step_right statements marks (step_of step) }
{
    mark_right(step.mark, marks)
        && kind_right(step.reference, step.statement, statements, marks)
        && step.parent == 0
        && step.index == 0
}
