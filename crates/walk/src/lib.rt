// What the packed walk reads and puts down for one entry, and the normal walk, over the sections of a checked table.
#![tactic(auto)]

pub mod children;
pub mod hyps;
pub mod marks;
pub mod normal;
pub mod own;
pub mod room;
pub mod steps;
