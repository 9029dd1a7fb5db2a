// The children of an entry, as the packed walk reads them: off the words of the table, whose sections are cut anew at each reading.
ghost use Rattle.std.specs.Prelude.{◌≡◌, ◌*◌, ◌<◌, length, ltb};
ghost use Rattle.defs.specs.Table.{word, entry_words, child_words, entry_stmt_in, child_count_in};
ghost use Rattle.defs.specs.Checked.{HeaderOk};
ghost use Rattle.walk.specs.Marks.{counts_below};
ghost use Rattle.walk.specs.Packed.{entry_at};
ghost use Rattle.walk.specs.Children.{EntryOf, ChildrenOf};

use crate::hyps::parent_word;
use crate::marks::COUNTS;
use table::entries::{child, child_count, child_start, statement_of};
use table::sections::{child_section, entry_section};
use table::{EntryNo, StatementNo};

// Where the children of an entry stand in the child section, and the parent word that each carries.
#[derive(Clone, Copy, Debug, PartialEq, Eq)]
pub struct Children {
    pub first: usize,
    pub until: usize,
    pub parent: u32,
}

pub fn children_of(words: &[u32], explicit: bool, e: EntryNo) -> Children
    requires { EntryOf words.now e.0 }
    ensures { ChildrenOf words.now explicit e.0 result.first result.until result.parent }
{
    let entries = entry_section(words);
    let first = child_start(entries, e);
    Children {
        first,
        until: first + child_count(entries, e),
        parent: parent_word(entries, explicit, e),
    }
}

// Reference i of the table's child section.
pub fn child_in(words: &[u32], i: usize) -> EntryNo
    requires header_ok { HeaderOk words.now }
    requires i_in_bounds { i < length (child_words words.now) }
    ensures { result.0 ≡ word (child_words words.now) i }
{
    child(child_section(words), i)
}

pub fn statement_in(words: &[u32], e: EntryNo) -> StatementNo
    requires { EntryOf words.now e.0 }
    ensures { result.0 ≡ entry_stmt_in (entry_words words.now) e.0 }
{
    statement_of(entry_section(words), e)
}

// One comparison tells an entry that lists its own children first, which has some and no mark, from any other.
pub fn lists_children(words: &[u32], work: &[u32], e: EntryNo) -> bool
    requires entry_of { EntryOf words.now e.0 }
    requires e_in_bounds { entry_at e.0 < length work.now }
    ensures { result ≡ ltb (word work.now (entry_at e.0)) (counts_below * child_count_in (entry_words words.now) e.0) }
{
    let at = e.0 as usize + 1;
    (work[at] as usize) < COUNTS * child_count(entry_section(words), e)
}
