// The records of an entry section, and the references of a child section.
ghost use Rattle.std.specs.Prelude.{◌≡◌, ◌+◌, ◌≤◌, ◌<◌, length};
ghost use Rattle.defs.specs.Table.{word, entry_stmt_in, child_start_in, child_count_in, children_in};
ghost use Rattle.table.specs.Records.{EntryIn};

use crate::limits::ENTRY_WORDS;
use crate::numbers::{EntryNo, StatementNo};

pub fn statement_of(entries: &[u32], e: EntryNo) -> StatementNo
    requires { EntryIn entries.now e.0 }
    ensures { result.0 ≡ entry_stmt_in entries.now e.0 }
{
    let at = e.0 as usize;
    StatementNo(entries[ENTRY_WORDS * at])
}

pub fn child_start(entries: &[u32], e: EntryNo) -> usize
    requires { EntryIn entries.now e.0 }
    ensures { result ≡ child_start_in entries.now e.0 }
{
    let at = e.0 as usize;
    entries[ENTRY_WORDS * at + 1] as usize
}

pub fn child_count(entries: &[u32], e: EntryNo) -> usize
    requires { EntryIn entries.now e.0 }
    ensures { result ≡ child_count_in entries.now e.0 }
{
    let at = e.0 as usize;
    entries[ENTRY_WORDS * at + 2] as usize
}

// The children of entry e, in order.
pub fn children_of<'a>(entries: &[u32], children: &'a [u32], e: EntryNo) -> &'a [u32]
    requires entry_in { EntryIn entries.now e.0 }
    requires e_in_bounds { child_start_in entries.now e.0 + child_count_in entries.now e.0 ≤ length children.now }
    ensures { result.now ≡ children_in entries.now children.now e.0 }
{
    let start = child_start(entries, e);
    let end = start + child_count(entries, e);
    &children[start..end]
}

// Reference i of a child section.
pub fn child(children: &[u32], i: usize) -> EntryNo
    requires { i < length children.now }
    ensures { result.0 ≡ word children.now i }
{
    EntryNo(children[i])
}
