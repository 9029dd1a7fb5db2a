// A table with the statements and hypotheses of another, and new entries and children: its header and its length.
#![tactic(auto)]

ghost use Rattle.std.specs.Prelude.{◌≡◌, ◌≤◌, ◌+◌, ◌/◌, length};
ghost use Rattle.defs.specs.Table.{entry_size, entries_from};
ghost use Rattle.new_table.specs.NewTables.{most_entry_words, Renewable, new_header};

use table::limits::{ENTRY_WORDS, HEADER_WORDS};

pub fn entry_count(entries: &[u32]) -> u32
    requires { length entries.now ≤ most_entry_words }
    ensures { result ≡ length entries.now / entry_size }
{
    (entries.len() / ENTRY_WORDS) as u32
}

// The header of the new table.
pub fn new_header(words: &[u32], entries: &[u32], children: &[u32]) -> [u32; HEADER_WORDS]
    requires { Renewable words.now entries.now children.now }
    ensures { result ≡ new_header words.now entries.now children.now }
{
    let count = entry_count(entries);
    let from = words[6];
    [
        words[0],
        words[1],
        count,
        children.len() as u32,
        HEADER_WORDS as u32,
        words[5],
        from,
        from + ENTRY_WORDS as u32 * count,
        words[8],
        count.saturating_sub(1),
    ]
}

// How many words the new table has.
pub fn whole_length(words: &[u32], entries: &[u32], children: &[u32]) -> u32
    requires { Renewable words.now entries.now children.now }
    ensures { result ≡ entries_from words.now + length entries.now + length children.now }
{
    words[6] + entries.len() as u32 + children.len() as u32
}
