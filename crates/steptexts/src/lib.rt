// The texts of styles 1 to 4 (document 01, "Styles and layout"): the words of the steps of a packed list that stands in the working slice,
// and those of the normal walk, step by step. Each counts always and stores only where the output is long enough: lent an empty
// slice, it measures.
#![tactic(auto)]

pub mod named; // named.rt: the packed list and the names of its marks
pub mod normal; // normal.rt: styles 1 and 3
pub mod packed; // packed.rt: styles 2 and 4
