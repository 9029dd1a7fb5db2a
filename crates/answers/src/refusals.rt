// Why an operation refuses. Document 01 numbers the reasons from 1.
ghost use Rattle.std.specs.Prelude.{◌≡◌};
ghost use Rattle.answers.specs.Refused.{refusal_number};

#[derive(Clone, Copy, Debug, PartialEq, Eq)]
pub enum Refusal {
    // Fewer than 10 words, a count over its limit, a wrong offset or length.
    Header,
    // A statement record is wrong, or labels or hypotheses are not filled exactly.
    Statements,
    // A label byte other than letter, digit, `.`, `-`, `_`; or two equal labels.
    Labels,
    // A hypothesis reference out of range, of kind 0, or repeated in its list.
    Hypotheses,
    // An entry record is wrong, or the child references are not filled exactly.
    Entries,
    // A child not below its parent.
    Children,
    // The theorem is not a statement of kind 0, or QED is not below the number of entries.
    Goal,
    // Layout outside its bounds.
    Layout,
    // Style not 0 to 4.
    Style,
    // Compressed: the theorem's list has a floating after an essential.
    Mixed,
    // Compressed: a reachable essential not in the theorem's list.
    StrayEssential,
    // Compressed: a label to be listed longer than line width minus indent.
    LongLabel,
    // Normal styles: more than 1,000,000 steps.
    ManySteps,
    // Working slice too short.
    ShortWork,
    // Output does not fit.
    ShortOutput,
    // Malformed step list or label list.
    BadList,
    // Malformed letters.
    BadLetters,
    // Stack short, or not exactly one item at the end.
    BadStack,
}

impl Refusal {
    pub fn number(self) -> u32
        ensures { result ≡ refusal_number self }
    {
        self as u32 + 1
    }
}
