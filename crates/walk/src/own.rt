// What an entry puts down itself: one step. The working slice holds how many marks are given, then one word an entry (its counted parents,
// or its mark: crate::marks), then the steps. Each function is told where the next step goes, and answers where the one after goes.
ghost use Rattle.std.specs.Prelude.{◌≡◌, eqb, ltb};
ghost use Rattle.laws.specs.Tools.{pick};
ghost use Rattle.defs.specs.Table.{word};
ghost use Rattle.walk.specs.Packed.{entry_at, held, single, finishes, Room};

use crate::marks::{MARKED, mark_in};
use crate::steps::put_step;
use table::limits::STEP_WORDS;
use table::{EntryNo, StatementNo};

// A back reference has no statement.
fn statement_unless(mark: u32, statement: u32) -> u32
    ensures { result ≡ pick (eqb mark 0) statement 0 }
{
    if mark == 0 { statement } else { 0 }
}

// An entry that lists no children first is one step. Met again with a mark it is a back reference, childless it lists itself.
pub fn list_single(
    work: &mut [u32],
    e: EntryNo,
    statement: StatementNo,
    parent: u32,
    index: u32,
    end: usize,
) -> usize
    requires { Room e.0 (held work.old end) }
    ensures { held work.new result ≡ single e.0 statement.0 parent index (held work.old end) }
{
    let at = e.0 as usize + 1;
    let mark = mark_in(work[at]);
    let own = statement_unless(mark, statement.0);
    put_step(work, end, mark, 0, own, parent, index);
    end + STEP_WORDS
}

// After its children an entry lists itself. If it has more than one counted parent it gets the next mark from 1.
pub fn finish(
    work: &mut [u32],
    e: EntryNo,
    statement: StatementNo,
    parent: u32,
    index: u32,
    end: usize,
) -> usize
    requires { Room e.0 (held work.old end) }
    ensures { held work.new result ≡ finishes (ltb 1 (word work.old (entry_at e.0))) e.0 statement.0 parent index (held work.old end) }
{
    let at = e.0 as usize + 1;
    if 1 < work[at] {
        let mark = work[0] + 1;
        work[0] = mark;
        work[at] = MARKED + mark;
        put_step(work, end, 0, mark, statement.0, parent, index);
        return end + STEP_WORDS;
    }
    put_step(work, end, 0, 0, statement.0, parent, index);
    end + STEP_WORDS
}
