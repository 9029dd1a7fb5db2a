// The theorem's list: the hypotheses of the theorem in order, and what the compressed form asks of it.
#![tactic(auto)]

pub mod hypotheses; // hypotheses.rt: where the list stands, and refusal 10
pub mod lists; // lists.rt: a number that stands twice
