// The lines that say an answer, as bytes in a slice that is lent: so what the program prints is proved, up to the printing.
#![tactic(auto)]

pub mod limits; // limits.rt: what is larger than the slices lent
pub mod lines; // lines.rt: a line of a text
pub mod refusals; // refusals.rt: a refusal's number, and document 01's reason in words
pub mod texts; // texts.rt: the text of a table, or why there is none
pub mod verdicts; // verdicts.rt: what comparing the three ways came to
