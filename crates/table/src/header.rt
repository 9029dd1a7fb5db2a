// Header of ten words: s statements, h hypothesis references, n entries, c child references; offsets of the four sections;
// the theorem's statement number; the QED entry number.
ghost use Rattle.std.specs.Prelude.{◌≤◌, length};
ghost use Rattle.defs.specs.Table.{header_size};
ghost use Rattle.table.specs.Headers.{HeaderIs};

use crate::numbers::{EntryNo, StatementNo};

#[derive(Clone, Copy, Debug, PartialEq, Eq)]
pub struct Header {
    pub statements: u32,
    pub references: usize,
    pub entries: u32,
    pub child_refs: usize,
    pub theorem: StatementNo,
    pub qed: EntryNo,
}

pub fn read_header(words: &[u32]) -> Header
    requires { header_size ≤ length words.now }
    ensures { HeaderIs words.now result }
{
    Header {
        statements: words[0],
        references: words[1] as usize,
        entries: words[2],
        child_refs: words[3] as usize,
        theorem: StatementNo(words[8]),
        qed: EntryNo(words[9]),
    }
}
