// The answer of an operation: why it refuses, or what it wrote; and working slices that are left zero.
#![tactic(auto)]

pub mod refusals; // refusals.rt: the reasons to refuse, and their numbers
pub mod wiping; // wiping.rt: working slices left zero
pub mod written; // written.rt: an answer as C has it

pub use refusals::Refusal;
pub use wiping::{wipe, wipe_both};
pub use written::{Lengths, Written, WrittenTwo, done, done_both, refused, refused_both};
