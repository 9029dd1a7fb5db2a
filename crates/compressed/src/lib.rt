// The compressed text, style 0 (document 01, "Text: `(`, labels, `)`, then letters cut"), from the words of the working slice.
// It always counts and stores only where the slice is long enough: lent an empty slice, it measures.
#![tactic(auto)]

pub mod labels; // labels.rt: the labels of the label list
pub mod places; // places.rt: where the working slice has what is written
pub mod steps; // steps.rt: the letters of the steps, cut to the lines
pub mod text; // text.rt: all of it

pub use places::Places;
pub use text::compressed_text;
