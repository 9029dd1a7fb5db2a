// Which statements a packed list uses, how often, and in which order they are first met (document 01, "Label order and letters").
#![tactic(auto)]

pub mod clear; // clear.rt: words made zero
pub mod kinds; // kinds.rt: the used statements of one kind, in order
pub mod list; // list.rt: the listed statements
pub mod numbers; // numbers.rt: the place of each statement in the theorem's list
pub mod uses; // uses.rt: the used statements by first appearance, and how often each is used
