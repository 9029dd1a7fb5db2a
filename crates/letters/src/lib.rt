// The letters of compressed proofs: a number's code written, a byte's meaning, and the number that letters spell.
#![tactic(auto)]

pub mod code; // code.rt: the letters of a number (document 01, "Code of v")
pub mod letter; // letter.rt: what a byte says, one decision over ranges
pub mod number; // number.rt: the value of the letters read so far, which never wraps
