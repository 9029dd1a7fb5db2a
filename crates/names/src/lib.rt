// The names of marks in packed texts (document 01, "Names are decimals from 1 in order, skipping any that is a label in the table").
#![tactic(auto)]

pub mod decimal; // decimal.rt: the decimal digits of a number
pub mod number; // number.rt: the number that a label says
pub mod taken; // taken.rt: which numbers are labels
pub mod marks; // marks.rt: the names of all marks, computed once
