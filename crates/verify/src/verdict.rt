// What the comparison of the three ways answers.
ghost use Rattle.std.specs.Prelude.{◌≡◌};
ghost use Rattle.verify.specs.Verdicts.{at_stage, verdict_of};

use answers::Refusal;

// The operations in the order in which they are called.
#[derive(Clone, Copy, Debug, PartialEq, Eq)]
pub enum Stage {
    PackedList,
    PackedRead,
    NormalList,
    NormalRead,
    Letters,
    Decoded,
    LettersRead,
}

// The verdict in numbers. Refused: the operation of this stage gave that number of document 01. Differ: what it wrote is not what the
// packed list gave.
#[derive(Clone, Copy, Debug, PartialEq, Eq)]
pub enum Verdict {
    Agree,
    Refused(Stage, u32),
    Differ(Stage),
}

// Why the three ways do not agree. Refused: the operation of this stage refused. Differ: what it wrote is not what the packed list gave.
#[derive(Clone, Copy, Debug, PartialEq, Eq)]
pub enum Disagreement {
    Refused(Stage, Refusal),
    Differ(Stage),
}

// What the operation of a stage answered: its refusal ends the comparison.
pub fn at_stage<T>(stage: Stage, answer: Result<T, Refusal>) -> Result<T, Disagreement>
    ensures { result ≡ at_stage stage answer }
{
    match answer {
        Ok(given) => Ok(given),
        Err(refusal) => Err(Disagreement::Refused(stage, refusal)),
    }
}

impl From<Result<(), Disagreement>> for Verdict {
    ghost from_gives = { λ answer verdict. verdict ≡ verdict_of answer };

    fn from(answer: Result<(), Disagreement>) -> Self {
        match answer {
            Ok(()) => Verdict::Agree,
            Err(Disagreement::Refused(stage, refusal)) => {
                Verdict::Refused(stage, refusal.number())
            }
            Err(Disagreement::Differ(stage)) => Verdict::Differ(stage),
        }
    }
}
