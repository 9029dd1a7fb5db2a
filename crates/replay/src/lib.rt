// Replay of document 01, `Reading back`: a step list that is not explicit, read into new entries.
#![tactic(auto)]

pub mod answer;
pub mod run;
pub mod stack;
pub mod steps;
pub mod turn;

pub use answer::replay;
