// This crate is its specs/.

#![tactic(auto)]
