// The table of document 01: its limits, its two kinds of number, its header, sections and records.
#![tactic(auto)]

pub mod entries;
pub mod header;
pub mod kinds;
pub mod limits;
pub mod numbers;
pub mod sections;
pub mod statements;

pub use header::Header;
pub use kinds::Kind;
pub use numbers::{EntryNo, StatementNo};
