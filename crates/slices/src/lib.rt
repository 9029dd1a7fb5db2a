// Slices of any elements: two compared, one copied into another.
#![tactic(auto)]

pub mod copy;
pub mod same;
