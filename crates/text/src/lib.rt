// The main job: the text of a table in one of five styles (document 01, "Styles and layout").
#![tactic(auto)]

pub mod answer; // answer.rt: the public operation
pub mod style; // style.rt: the five styles and their numbers
pub mod writers; // writers.rt: a style's text measured, then written

pub use answer::text;
pub use style::Style;
