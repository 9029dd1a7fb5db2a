// The two step lists of document 01, as public operations.
#![tactic(auto)]

mod ending; // ending.rt: the working slice left zero
pub mod normal; // normal.rt: the normal list
pub mod packed; // packed.rt: the packed list
