// The entries that a replay builds: an exactly equal one is found, or one is appended.
#![tactic(auto)]

pub mod lookup;
pub mod place;
