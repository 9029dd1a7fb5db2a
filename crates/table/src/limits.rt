// The limits and sizes of document 01, named once. The proofs of what uses them hold each to its name in crate defs.

// s at most 4,096, h at most 65,535, n at most 8,192, c at most 65,535.
pub const MAX_STATEMENTS: u32 = 4096;

pub const MAX_REFERENCES: u32 = 65535;

pub const MAX_ENTRIES: u32 = 8192;

pub const MAX_CHILD_REFS: u32 = 65535;

// Label length 1 to 255.
pub const MAX_LABEL_LENGTH: usize = 255;

// Header of ten words; statement, 5 words; entry, 3 words.
pub const HEADER_WORDS: usize = 10;

pub const STATEMENT_WORDS: usize = 5;

pub const ENTRY_WORDS: usize = 3;

// A step is five words: reference, mark, statement, parent statement plus 1, hypothesis index.
pub const STEP_WORDS: usize = 5;
