// The packed walk of document 01 over the words of a checked table.
#![tactic(auto)]

pub mod explicit;
pub mod pack;
pub mod plain;
