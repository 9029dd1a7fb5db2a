// Counts and distances of document 01: the parents of every entry, its distance from QED, and the number of its normal steps.
#![tactic(auto)]

pub mod distances;
pub mod parents;
pub mod sizes;
