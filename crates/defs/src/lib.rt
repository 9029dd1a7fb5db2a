// This crate is its specs/: what right means, laws about it, and the worked example.

#![tactic(auto)]
