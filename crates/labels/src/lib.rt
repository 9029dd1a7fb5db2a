// The label list of a table, from its listed statements (document 01, "Label order and letters").
#![tactic(auto)]

pub mod floatings; // floatings.rt: the theorem's floating count
pub mod order; // order.rt: the label list in the working slice, and the numbers of its statements
pub mod refusals; // refusals.rt: 11 and 12
pub mod weights; // weights.rt: what each listed statement costs, and how often it is used
