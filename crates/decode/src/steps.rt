// The steps that letters name, and their words in the output.
// Step n has its words from 5n on. It is stored where the slice has room for it, and else only counted.
ghost use Rattle.std.specs.Prelude.{◌≡◌, ◌+◌, ◌<◌, length};
ghost use Rattle.defs.specs.Table.{max_word};
ghost use Rattle.defs.specs.Decode.{step_named};
ghost use Rattle.decode.specs.Decoding.{step_of, StepPut, MarkPut};

use table::limits::STEP_WORDS;

// A step that has no mark yet. The list is not explicit, so its last two words are 0.
#[derive(Clone, Copy, Debug, PartialEq, Eq)]
pub struct NamedStep {
    pub reference: u32,
    pub statement: u32,
}

// Numbers name first the theorem's list, then the label list, then the marks.
#[tactic(auto, using(defs::proofs::LetterLaws::named_thm, defs::proofs::LetterLaws::named_label, crate::proofs::StepLaws::named_mark))]
pub fn step_named(hypotheses: &[u32], list: &[u32], number: u32) -> NamedStep
    requires { number < length hypotheses.now + length list.now + max_word }
    ensures { step_of result ≡ step_named hypotheses.now list.now number }
{
    let place = number as usize;
    if place < hypotheses.len() {
        return NamedStep {
            reference: 0,
            statement: hypotheses[place],
        };
    }
    let listed = place - hypotheses.len();
    if listed < list.len() {
        return NamedStep {
            reference: 0,
            statement: list[listed],
        };
    }
    NamedStep {
        reference: (listed - list.len()) as u32 + 1,
        statement: 0,
    }
}

#[tactic(auto, using(crate::proofs::StepLaws::five_stores))]
pub fn put_step(step: NamedStep, n: usize, out: &mut [u32])
    ensures { StepPut (step_of step) n out.old out.new }
{
    if out.len() / STEP_WORDS <= n {
        return;
    }
    let at = STEP_WORDS * n;
    out[at] = step.reference;
    out[at + 1] = 0;
    out[at + 2] = step.statement;
    out[at + 3] = 0;
    out[at + 4] = 0;
}

pub fn put_mark(mark: u32, n: usize, out: &mut [u32])
    ensures { MarkPut mark n out.old out.new }
{
    if out.len() / STEP_WORDS <= n {
        return;
    }
    out[STEP_WORDS * n + 1] = mark;
}
