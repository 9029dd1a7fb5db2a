// The sizes of the program's arrays. A program has no heap, and 8 MiB of stack in all, so it has limits of its own
// (docs/DECISIONS.md): all counts and layouts of document 01, but not all label bytes and not all normal lists.

// The words of the largest table of document 01: 10 + 5 × 4,096 + 65,535 + 3 × 8,192 + 65,535.
pub const TABLE_WORDS: usize = 176136;

// 64 bytes for each of 4,096 labels.
pub const LABEL_BYTES: usize = 262144;

// 8 × (n + c + s + 1) of the largest table.
pub const WORK_WORDS: usize = 622592;

// (s + 1) × (W + 1) of 4,096 statements at the widest layout, W = 255.
pub const WORK_SUMS: usize = 1048832;

// Packed lists have at most c + 1 steps, of five words each.
pub const MOST_STEPS: u32 = 65536;

pub const LIST_WORDS: usize = 327680;

// A step has at most five letters, since fewer than 15,620 things have a number, and `Z`.
pub const LETTER_BYTES: usize = 393216;

// Texts of 393,216 bytes: as many as letters, more than three times the packed explicit text of set.mm's largest table. They stand
// between a first line of 15 bytes and a newline.
pub const TEXT_ANSWER_BYTES: usize = 393232;

// What verify lends beside the working words: normal lists of 100,000 steps; packed lists of 9,600 steps, the letters of so many, and
// as many children as so many steps take; and the sums of 2,456 statements at width 79.
pub const VERIFY_NORMAL: usize = 500000;

pub const VERIFY_PACKED: usize = 48000;

pub const VERIFY_LETTERS: usize = 57600;

pub const VERIFY_CHILDREN: usize = 9600;

pub const VERIFY_SUMS: usize = 196608;

pub const MOST_STATEMENTS: usize = 4096;

pub const MOST_ENTRIES: usize = 8192;

pub const ENTRY_WORDS: usize = 24576;

pub const CHILD_WORDS: usize = 65535;
