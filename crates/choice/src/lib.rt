// The choice within a block (document 01, "Choose a set with the greatest total cost not over W − position").
// Callers see one contract, that of `choose`; how the totals are kept stands behind it.
#![tactic(auto)]

pub mod choice; // choice.rt: the set of document 01's tie rule, read off the totals from the last item to the first
pub mod totals; // totals.rt: the greatest total for every room, item by item

pub use choice::{Choice, choose};
