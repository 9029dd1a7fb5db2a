// Demand 3 at work: the normal list, the packed list, and the letters with their label list, each read back and compared.
#![tactic(auto)]

pub mod answer; // answer.rt: the public operation
pub mod compare; // compare.rt: a step list read and compared with what was read before
pub mod spelled; // spelled.rt: the letters and the steps that they decode to
pub mod verdict; // verdict.rt: what is answered
pub mod walks; // walks.rt: the packed list and the normal list
pub mod ways; // ways.rt: the letters read, and the three ways together

pub use answer::verify;
pub use verdict::{Disagreement, Stage, Verdict};
