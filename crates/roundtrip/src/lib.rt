// This crate is its specs/: demand 3, stated and proved.

#![tactic(auto)]
