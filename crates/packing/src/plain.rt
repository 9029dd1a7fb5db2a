// The packed walk of a list that is not explicit: parent word and index word of every step are 0.
ghost use Rattle.std.specs.Prelude.{false};
ghost use Rattle.defs.specs.Table.{entry_words, child_words};
ghost use Rattle.defs.specs.Checked.{HeaderOk};
ghost use Rattle.walk.specs.Packed.{held, Ready, ListedAll};

use table::EntryNo;
use walk::children::{child_in, children_of, lists_children, statement_in};
use walk::own::{finish, list_single};

// The children of an entry in order, each with what lies below it. The recursion goes to falling entry numbers, since children lie below
// their parents. A walk is as deep as a table has entries, so little is kept from one call to the next: the table's words are handed on by
// their place. And it is two functions in turn, which the compiler makes one, so that a call is for two entries: a return from far
// down costs as much as several steps.
#[cycle(plain)]
pub fn plain_children(words: &&[u32], work: &mut [u32], e: EntryNo, start: usize) -> usize
    requires header_ok { HeaderOk words.now.now }
    requires ready { Ready (entry_words words.now.now) (child_words words.now.now) false e.0 (held work.old start) }
    ensures { ListedAll words.now.now false e.0 (held work.old start) (held work.new result) }
{
    let own = children_of(*words, false, e);
    let mut end = start;
    for i in own.first..own.until {
        let c = child_in(*words, i);
        let statement = statement_in(*words, c);
        if lists_children(*words, &work[..], c) {
            end = plain_grandchildren(words, work, c, end);
            end = finish(work, c, statement, 0, 0, end);
        } else {
            end = list_single(work, c, statement, 0, 0, end);
        }
    }
    end
}

// The children of a child, listed in the same way. As it is: one function would be a call for each entry, and slower (docs/PERFORMANCE.md).
#[cycle(plain)]
fn plain_grandchildren(words: &&[u32], work: &mut [u32], e: EntryNo, start: usize) -> usize
    requires header_ok { HeaderOk words.now.now }
    requires ready { Ready (entry_words words.now.now) (child_words words.now.now) false e.0 (held work.old start) }
    ensures { ListedAll words.now.now false e.0 (held work.old start) (held work.new result) }
{
    let own = children_of(*words, false, e);
    let mut end = start;
    for i in own.first..own.until {
        let c = child_in(*words, i);
        let statement = statement_in(*words, c);
        if lists_children(*words, &work[..], c) {
            end = plain_children(words, work, c, end);
            end = finish(work, c, statement, 0, 0, end);
        } else {
            end = list_single(work, c, statement, 0, 0, end);
        }
    }
    end
}
