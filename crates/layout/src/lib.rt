// Styles and layout (document 01): the bounds of a layout, words laid on lines, letters cut.
// Every writer counts always and stores only where the slice is long enough: lent an empty slice, it measures.
#![tactic(auto)]

pub mod bounds; // bounds.rt: width, indent and first position, their defaults and bounds
pub mod bytes; // bytes.rt: bytes put into a slice where they fit
pub mod cuts; // cuts.rt: letters cut while they are made
pub mod lines; // lines.rt: the beginning, a word, the last word

pub use bounds::Layout;
pub use lines::Line;
