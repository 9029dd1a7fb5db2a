// Label order and letters (document 01): the label list of a table, and the letters of its packed list.
#![tactic(auto)]

pub mod answer; // answer.rt: the public operation
pub mod arranged; // arranged.rt: packed list, label list and numbers in the working slice, and refusals 10 to 12
pub mod room; // room.rt: the u16 working slice

pub use answer::label_letters;
pub use arranged::{Arranged, arrange};
