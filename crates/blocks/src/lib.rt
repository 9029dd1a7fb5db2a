// The blocks of document 01's label order: labels by use count, cut into blocks, each block by index, each line filled by the choice.
// Callers see one contract, that of `label_order`: the order of the labels' indices from their costs and use counts.
#![tactic(auto)]

pub mod block; // block.rt: one block
pub mod cutoffs; // cutoffs.rt: the constant table that says where a block closes
pub mod line; // line.rt: one line of a block
pub mod order; // order.rt: all blocks

pub use order::label_order;
