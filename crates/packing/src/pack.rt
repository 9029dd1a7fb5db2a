// Packed walk from QED: an entry without a mark lists its children in order, then itself. The working slice holds how many marks are
// given, then one word an entry, then the steps (walk::own).
ghost use Rattle.std.specs.Prelude.{length};
ghost use Rattle.defs.specs.Table.{entry_words, child_words};
ghost use Rattle.defs.specs.Checked.{HeaderOk};
ghost use Rattle.walk.specs.Packed.{held, Ready, ListedAll, Countable, Counted, Packable, Packed};

use crate::explicit::explicit_children;
use crate::plain::plain_children;
use counts::parents::count_parents;
use table::EntryNo;
use table::entries::{child_count, statement_of};
use table::limits::ENTRY_WORDS;
use table::sections::{child_section, entry_section};
use walk::own::{finish, list_single};

// No marks are given, and each entry's word is its number of parents. The steps start after these words.
fn begin(children: &[u32], work: &mut [u32], start: usize)
    requires { Countable children.now start (length work.old) }
    ensures { Counted children.now start work.new }
{
    count_parents(children, &mut work[1..start]);
    work[0] = 0;
}

// The children of an entry in order, each with what lies below it. The two kinds of list have a walk each, so that one that carries no
// parents keeps none from one call to the next: a walk is as deep as a table has entries.
fn list_children(
    words: &&[u32],
    work: &mut [u32],
    explicit: bool,
    e: EntryNo,
    start: usize,
) -> usize
    requires header_ok { HeaderOk words.now.now }
    requires ready { Ready (entry_words words.now.now) (child_words words.now.now) explicit e.0 (held work.old start) }
    ensures { ListedAll words.now.now explicit e.0 (held work.old start) (held work.new result) }
{
    if explicit {
        return explicit_children(words, work, e, start);
    }
    plain_children(words, work, e, start)
}

// The packed list from QED, in the working slice after the entries' words; where it ends.
pub fn pack(words: &[u32], work: &mut [u32], explicit: bool, qed: EntryNo) -> usize
    requires header_ok { HeaderOk words.now }
    requires packable { Packable (entry_words words.now) (child_words words.now) explicit qed.0 (length work.old) }
    ensures { Packed (entry_words words.now) (child_words words.now) explicit qed.0 (held work.new result) }
{
    let entries = entry_section(words);
    let start = entries.len() / ENTRY_WORDS + 1;
    begin(child_section(words), work, start);
    let statement = statement_of(entries, qed);
    if child_count(entries, qed) == 0 {
        return list_single(work, qed, statement, 0, 0, start);
    }
    let end = list_children(&words, work, explicit, qed, start);
    finish(work, qed, statement, 0, 0, end)
}
