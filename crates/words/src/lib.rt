// The word of a step in a text of styles 1 to 4 (document 01: "Word: label; marked, `name:label`; reference, name. Explicit puts `hyp=`
// before the label or referred name, after any mark and colon; at the root, the theorem's label").
#![tactic(auto)]

pub mod hyps; // hyps.rt: the label of the hypothesis that a step stands for
pub mod parts; // parts.rt: the three parts of a word, their lengths and their bytes
pub mod spans; // spans.rt: where a label lies
pub mod word; // word.rt: a word by its parts, its length, and how it is laid

pub use spans::Span;
pub use word::Word;
