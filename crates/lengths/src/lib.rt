// This crate is its specs/: how long a packed list is.

#![tactic(auto)]
